//! The law of copies: when a file was copied to the server, by the history, and where its bytes are afterwards. Nothing here runs: each function has an empty
//! body, and its contract is the theorem.
#![tactic(auto)]

ghost use Rattle.law_copies.specs.Copied.{AskedAreCopied};
ghost use Rattle.law_copies.specs.Lasting.{CopiesStay, RowsFind};

/// A file is copied to its path if
/// - a lane of the script was asked for the operations that copy it;
/// - each line of the script has its answer;
/// - none of that lane is refused.
pub fn copies_are_done()
    ensures { AskedAreCopied }
{}

/// Each byte of a file that was copied is in the file to which its path led, on stable storage. There it is from the close on, unless something touched it
/// since it was written (RFC 1813, sections 3.3.21 and 4.8). The premises: bytes that the session made stable stay, and each open that succeeded is of a file.
pub fn copies_stay()
    ensures { CopiesStay }
{}

/// Each open that succeeded is of a file: of the one whose attributes it asked for last, or that its LOOKUP or CREATE gave (RFC 1813, sections 3.3.1, 3.3.3 and
/// 3.3.8).
pub fn opens_find()
    ensures { RowsFind }
{}
