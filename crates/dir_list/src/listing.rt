//! A listing, page by page.

ghost use Rattle.std.specs.Prelude.{◌≡◌, ◌⊎◌, ◌≤◌, [], ◌++◌, length, true, OnOk, OnErr, IfOk, IfErr, IsTrue};
ghost use Rattle.nfs_types.specs.Names.{IsName};
ghost use Rattle.dir_list.specs.declared.progress.ListFault.TheVariants as faults;
ghost use Rattle.dir_list.specs.Listings.{listing_limit, counts, counted, page_step, Lists};
ghost use Rattle.dir_list.specs.Taking.{counted_name, Took, IsOver, BeginsWith, next_step};

use crate::progress::{ListFault, ListStep};
use nfs_dir_calls::PlusPage;
use nfs_types::{Name, NameList, Verf};
use std::alloc::Global;
use std::marker::Model;

/// The most entries that a listing has.
const LIMIT: usize = 65536;

/// The names of a directory, page by page: those that count of the pages so far, in the order in which they came.
/// `.` and `..` don't count.
#[derive(Drop)]
pub struct Listing {
    names: Vec<Name>,
}

impl Model for Listing {
    ghost use Rattle.std.specs.Prelude.{◌≤◌, List, ℕ, length};
    ghost use Rattle.dir_list.specs.Listings.{listing_limit};

    ghost Value = { List (List ℕ) };

    ghost view = { λ l. l.names.items };

    ghost invariant = { λ l. length l.names.items ≤ listing_limit };
}

impl Listing {
    /// No page yet. It takes no memory.
    pub fn new(alloc: Global) -> Listing
        ensures { result ≡ [] }
    {
        Listing {
            names: Vec::new(alloc),
        }
    }

    /// Takes the next page, with its verifier of cookies and whether it is the last one.
    ///
    /// Many comes exactly if the names that count of this page and of all before it, repeated ones among them, are
    /// more than 65,536. Stuck comes exactly if the page has no entry, not even `.` or `..`, and isn't the last.
    /// After a fault the listing is as it was.
    pub fn page(&mut self, page: PlusPage<'_>, verf: Verf, eof: bool) -> Result<ListStep, ListFault>
        ensures ok { IfOk result (λ step. page_step self.old page.entry verf eof ≡ Ok step) }
        ensures fault { IfErr result (λ fault. (fault ≡ faults.Memory) ⊎ (page_step self.old page.entry verf eof ≡ Err fault)) }
        ensures taken { OnOk result (self.new ≡ self.old ++ counted page.entry) }
        ensures kept { OnErr result (self.new ≡ self.old) }
        ensures bound { length self.new ≤ listing_limit }
    {
        let before = self.names.len();
        match take_page(&mut self.names, page) {
            Ok(last) => next_step(last, verf, eof),
            Err(fault) => {
                self.names.truncate(before);
                Err(fault)
            }
        }
    }

    /// The names in the order of their bytes, each once. It takes no memory.
    pub fn finish(self) -> NameList
        ensures names { Lists self result }
        ensures bound { length self ≤ listing_limit }
    {
        let mut names = self.names;
        names.sort_unstable();
        names.dedup();
        NameList::of(names)
    }
}

/// What follows a page whose last entry has this cookie, or that has none.
fn next_step(last: Option<u64>, verf: Verf, eof: bool) -> Result<ListStep, ListFault>
    ensures { result ≡ next_step last verf eof }
{
    if eof {
        return Ok(ListStep::End);
    }
    match last {
        Some(cookie) => Ok(ListStep::More { cookie, verf }),
        None => Err(ListFault::Stuck),
    }
}

/// Appends the names of a page that count, and gives the cookie of its last entry. After a fault some may have been
/// appended.
fn take_page(names: &mut Vec<Name>, mut page: PlusPage<'_>) -> Result<Option<u64>, ListFault>
    requires { length names.old.items ≤ listing_limit }
    ensures ok { IfOk result (Took names.old.items page.entry names.new.items) }
    ensures fault { IfErr result (λ fault. (fault ≡ faults.Memory) ⊎ ((fault ≡ faults.Many) × IsOver names.old.items page.entry)) }
    ensures begins { BeginsWith names.old.items names.new.items }
{
    let mut last = None;
    while let Some(entry) = page.next() {
        match take_name(names, entry.name) {
            Ok(()) => last = Some(entry.cookie),
            Err(fault) => return Err(fault),
        }
    }
    Ok(last)
}

/// Appends a name, if it counts.
fn take_name(names: &mut Vec<Name>, name: &[u8]) -> Result<(), ListFault>
    requires fits { length names.old.items ≤ listing_limit }
    requires name { IsName name.now }
    ensures ok { OnOk result (names.new.items ≡ names.old.items ++ counted_name name.now) }
    ensures bound { length names.new.items ≤ listing_limit }
    ensures fault { IfErr result (λ fault. (fault ≡ faults.Memory) ⊎ ((fault ≡ faults.Many) × (length names.old.items ≡ listing_limit) × (counts name.now ≡ true))) }
    ensures kept { OnErr result (names.new.items ≡ names.old.items) }
{
    if !counts(name) {
        return Ok(());
    }
    if names.len() == LIMIT {
        return Err(ListFault::Many);
    }
    let own = Name::make(name).unwrap();
    match names.push(own) {
        Ok(()) => Ok(()),
        Err(_) => Err(ListFault::Memory),
    }
}

/// Whether it is neither `.` nor `..`.
#[tactic(auto, unfolding(crate::specs::Listings::counts))]
fn counts(name: &[u8]) -> bool
    ensures { result ≡ counts name.now }
{
    !(name == b".".as_slice() || name == b"..".as_slice())
}
