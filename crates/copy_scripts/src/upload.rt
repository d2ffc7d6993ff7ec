//! A copy from a tree to a server.

ghost use Rattle.std.specs.Bool.{OnFalse, OnTrue};
ghost use Rattle.std.specs.Prelude.{◌≡◌, ◌≤◌, ◌∷◌, ◌++◌, [], true, All, IfOk, IfSome, OnOk, Ok, None, length};
ghost use Rattle.file_trees.specs.declared.item.Node.TheVariants as nodes;
ghost use Rattle.file_trees.specs.declared.tree.Given.TheVariants as gives;
ghost use Rattle.file_trees.specs.Giving.{IsFew, IsPiece};
ghost use Rattle.nfs_script.specs.Asked.{IsAskedLine, IsNamed, IsTarget};
ghost use Rattle.copy_plan.specs.Files.{begins, ends, writes};
ghost use Rattle.copy_plan.specs.Lines.{IsNameLine};
ghost use Rattle.copy_scripts.specs.declared.upload.Sent.TheVariants as sents;
ghost use Rattle.copy_scripts.specs.Uploads.{Gave, Judges, MayLink, NextIs, OnlyWrong, Takes, TakesNode, at_start, taken};

use crate::answers::{Answer, next_answer};
use crate::owners::{Kind, Owners};
use crate::paths::below;
use crate::telling::Teller;
use copy_plan::{FileLines, NameLines, PlanFault};
use file_trees::{Cut, Item, Node, Piece, Tree};
use nfs_script::Script;
use outside::{Clock, Sink};
use std::alloc::Global;
use std::marker::Model;
use world_model::Path;
use xdr_codec::{Blob, Memory};

/// A script has so many bytes of files at most, and one piece more.
const MOST_BYTES: usize = 8_388_608;

/// A script has so many lines at most, and few more.
const MOST_LINES: usize = 4096;

/// The most bytes of what a link leads to.
const MOST_TARGET: usize = 1024;

/// The most answers of a script.
const MOST_ANSWERS: usize = 16_384;

/// Which script was asked for last. Before the first it is as if one of names had been, without a line.
#[derive(Clone, Copy, Debug, PartialEq, Eq)]
pub enum Sent {
    /// That of folders and links.
    Names,
    /// That of files.
    Files,
}

/// A copy that is under way. Folders and links go before the files that were given with them, in a script of their own.
#[derive(Drop)]
pub struct Upload {
    to: Path,
    names: NameLines,
    named: Owners,
    files: FileLines,
    filed: Owners,
    /// How many bytes of files the script has.
    bytes: usize,
    sent: Sent,
    /// Whether something wasn't copied.
    is_wrong: bool,
}

impl Model for Upload {
    ghost use Rattle.copy_scripts.specs.Uploads.{UploadView};

    ghost Value = { UploadView };

    ghost view = { λ u. record { to = u.to; names = u.names; files = u.files; sent = u.sent; wrong = u.is_wrong } };
}

impl Upload {
    /// A copy to this path of a server.
    pub fn new(alloc: Global, to: Path) -> Upload
        ensures { result ≡ at_start to }
    {
        Upload {
            to,
            names: NameLines::new(alloc),
            named: Owners::new(alloc),
            files: FileLines::new(alloc),
            filed: Owners::new(alloc),
            bytes: 0,
            sent: Sent::Names,
            is_wrong: false,
        }
    }

    /// Whether something wasn't copied.
    pub fn is_wrong(&self) -> bool
        ensures { result ≡ self.now.wrong }
    {
        self.is_wrong
    }

    /// The next script; none at the end. The answers are the lines that were written of the one before, and its status is 0, 1 or 6.
    /// What wasn't copied is told.
    pub fn next<T: Tree, K: Sink, C: Clock>(
        &mut self,
        alloc: Global,
        tree: &mut T,
        teller: &mut Teller<'_, K, C>,
        answers: &[u8],
        status: u8,
    ) -> Result<Option<Script>, Memory>
        ensures goes { IfOk result (λ script. Gave (T.given tree.old) (T.given tree.new) (λ given. NextIs status script given self.old self.new)) }
        ensures asked { IfOk result (λ script. IfSome script (λ lines. All IsAskedLine lines)) }
        ensures few { IfOk result (λ script. IfSome script (λ lines. length lines ≤ 16384)) }
        ensures over { result ≡ Ok None → T.over tree.new }
    {
        self.judge(alloc, teller, answers, status)?;
        self.forget();
        teller.tell_progress()?;
        if self.files_wait() {
            return Ok(Some(self.send_files(alloc)));
        }
        let is_over = self.gather(alloc, tree, teller)?;
        if self.names.count() > 0 {
            return Ok(Some(self.send_names(alloc)));
        }
        if self.files.count() > 0 {
            return Ok(Some(self.send_files(alloc)));
        }
        ended(is_over)
    }

    /// Whether folders and links were sent, and files are to go behind them.
    fn files_wait(&self) -> bool {
        match self.sent {
            Sent::Names => self.files.count() > 0,
            Sent::Files => false,
        }
    }

    /// Takes from the tree until a script is full, or the tree is at its end: whether it is.
    fn gather<T: Tree, K: Sink, C: Clock>(
        &mut self,
        alloc: Global,
        tree: &mut T,
        teller: &mut Teller<'_, K, C>,
    ) -> Result<bool, Memory>
        ensures takes { IfOk result (λ _. Gave (T.given tree.old) (T.given tree.new) (λ given. Takes given self.old self.new)) }
        ensures over { result ≡ Ok true → T.over tree.new }
    {
        for _ in 0..u64::MAX {
            if self.is_full() {
                return Ok(false);
            }
            let is_over = self.take_one(alloc, tree, teller)?;
            if is_over {
                return Ok(true);
            }
        }
        Ok(false)
    }

    fn is_full(&self) -> bool {
        self.bytes >= MOST_BYTES
            || self.files.count() >= MOST_LINES
            || self.names.count() >= MOST_LINES
    }

    /// Takes what comes next of the tree: of the file that was begun, or else the next object. It answers whether the tree is at its end.
    fn take_one<T: Tree, K: Sink, C: Clock>(
        &mut self,
        alloc: Global,
        tree: &mut T,
        teller: &mut Teller<'_, K, C>,
    ) -> Result<bool, Memory>
        ensures takes { IfOk result (λ _. Gave (T.given tree.old) (T.given tree.new) (λ given. Takes given self.old self.new)) }
        ensures over { result ≡ Ok true → T.over tree.new }
    {
        if self.files.is_open() {
            return self.read_on(alloc, tree, teller);
        }
        self.go_on(alloc, tree, teller)
    }

    /// Takes what comes next of the file that was begun.
    fn read_on<T: Tree, K: Sink, C: Clock>(
        &mut self,
        alloc: Global,
        tree: &mut T,
        teller: &mut Teller<'_, K, C>,
    ) -> Result<bool, Memory>
        ensures takes { IfOk result (λ _. Gave (T.given tree.old) (T.given tree.new) (λ given. Takes given self.old self.new)) }
        ensures not { result ≡ Ok true → ⊥ }
    {
        let piece = tree.read(alloc)?;
        self.take_piece(alloc, teller, piece)?;
        Ok(false)
    }

    /// Takes the next object of the tree: whether there is none.
    fn go_on<T: Tree, K: Sink, C: Clock>(
        &mut self,
        alloc: Global,
        tree: &mut T,
        teller: &mut Teller<'_, K, C>,
    ) -> Result<bool, Memory>
        ensures takes { IfOk result (λ _. Gave (T.given tree.old) (T.given tree.new) (λ given. Takes given self.old self.new)) }
        ensures over { result ≡ Ok true → T.over tree.new }
    {
        match tree.next(alloc)? {
            Some(item) => {
                self.take_item(alloc, teller, item)?;
                Ok(false)
            }
            None => Ok(true),
        }
    }

    /// Takes an object. One that can't be copied is told.
    fn take_item<K: Sink, C: Clock>(
        &mut self,
        alloc: Global,
        teller: &mut Teller<'_, K, C>,
        item: Item,
    ) -> Result<(), Memory>
        ensures { OnOk result (Takes (gives.Item item ∷ []) self.old self.new) }
    {
        let Item { path, node } = item;
        match below(alloc, &self.to, &path)? {
            Some(to) => self.take_node(alloc, teller, to, node),
            None => self.take_unnamed(teller, &path, &node),
        }
    }

    /// Takes what stands at a path, which is to go to another one.
    fn take_node<K: Sink, C: Clock>(
        &mut self,
        alloc: Global,
        teller: &mut Teller<'_, K, C>,
        to: Path,
        node: Node,
    ) -> Result<(), Memory>
        requires { IsNamed to }
        ensures { OnOk result (TakesNode to node self.old self.new) }
    {
        match node {
            Node::Folder => self.take_folder(alloc, to),
            Node::Link(target) => self.take_link(alloc, teller, to, target),
            Node::File => self.take_file(alloc, to),
            Node::Other => self.complain(teller, &to, b"neither a file, a folder nor a link"),
            Node::Unread(_) => self.complain(teller, &to, b"can't be read"),
        }
    }

    /// The root of the server is there. Any other object without a path, or with one that is too long, isn't copied.
    fn take_unnamed<K: Sink, C: Clock>(
        &mut self,
        teller: &mut Teller<'_, K, C>,
        path: &Path,
        node: &Node,
    ) -> Result<(), Memory>
        requires { IsNamed (self.old.to ++ path.now) → ⊥ }
        ensures { OnOk result (TakesNode (self.old.to ++ path.now) node.now self.old self.new) }
    {
        if is_root(path, node) {
            return Ok(());
        }
        self.complain(teller, path, b"its path can't stand there")
    }

    fn take_folder(&mut self, alloc: Global, to: Path) -> Result<(), Memory>
        requires { IsNamed to }
        ensures { OnOk result (self.new ≡ record self.old { names = self.new.names }) }
    {
        self.named
            .add(self.names.next(), to.copy(alloc)?, Kind::Folder)?;
        let again = to.copy(alloc)?;
        planned(self.names.make_folder(to))?;
        planned(self.names.show(again))
    }

    fn take_link<K: Sink, C: Clock>(
        &mut self,
        alloc: Global,
        teller: &mut Teller<'_, K, C>,
        to: Path,
        target: Blob,
    ) -> Result<(), Memory>
        requires { IsNamed to }
        ensures { OnOk result (TakesNode to (nodes.Link target) self.old self.new) }
    {
        if !is_target(target.bytes()) {
            return self.complain(teller, &to, b"the link can't be made");
        }
        self.plan_link(alloc, to, target)
    }

    fn plan_link(&mut self, alloc: Global, to: Path, target: Blob) -> Result<(), Memory>
        requires to { IsNamed to }
        requires target { IsTarget target }
        ensures { OnOk result (self.new ≡ record self.old { names = self.new.names }) }
    {
        let own = Blob::copy(alloc, target.bytes())?;
        self.named
            .add(self.names.next(), to.copy(alloc)?, Kind::Link(own))?;
        let again = to.copy(alloc)?;
        planned(self.names.make_link(to, target))?;
        planned(self.names.show_link(again))
    }

    fn take_file(&mut self, alloc: Global, to: Path) -> Result<(), Memory>
        requires { IsNamed to }
        ensures { OnOk result (self.new ≡ record self.old { files = begins to self.old.files }) }
    {
        self.filed
            .add(self.files.next(), to.copy(alloc)?, Kind::File)?;
        planned(self.files.begin(to))
    }

    /// Takes what comes next of the file that was begun.
    fn take_piece<K: Sink, C: Clock>(
        &mut self,
        alloc: Global,
        teller: &mut Teller<'_, K, C>,
        piece: Piece,
    ) -> Result<(), Memory>
        requires { IsPiece piece }
        ensures { OnOk result (Takes (gives.Piece piece ∷ []) self.old self.new) }
    {
        match piece {
            Piece::Bytes(bytes) => self.take_bytes(teller, bytes),
            Piece::End => self.take_end(teller),
            Piece::Cut(cut) => self.take_cut(alloc, teller, cut),
        }
    }

    fn take_bytes<K: Sink, C: Clock>(
        &mut self,
        teller: &mut Teller<'_, K, C>,
        bytes: Blob,
    ) -> Result<(), Memory>
        requires { IsFew bytes }
        ensures { OnOk result (self.new ≡ record self.old { files = writes bytes self.old.files }) }
    {
        let count = bytes.bytes().len();
        self.bytes = self.bytes.saturating_add(count);
        teller.add_bytes(count);
        planned(self.files.write(bytes))
    }

    fn take_end<K: Sink, C: Clock>(&mut self, teller: &mut Teller<'_, K, C>) -> Result<(), Memory>
        ensures { OnOk result (self.new ≡ record self.old { files = ends self.old.files }) }
    {
        teller.add_file();
        planned(self.files.end())
    }

    /// The file that was begun last isn't whole. It is closed all the same.
    fn take_cut<K: Sink, C: Clock>(
        &mut self,
        alloc: Global,
        teller: &mut Teller<'_, K, C>,
        cut: Cut,
    ) -> Result<(), Memory>
        ensures { OnOk result (self.new ≡ record self.old { files = ends self.old.files; wrong = true }) }
    {
        self.is_wrong = true;
        if let Some(path) = self.filed.untold(alloc, self.files.next())? {
            teller.complain(&path, why_cut(cut))?;
        }
        planned(self.files.end())
    }

    /// Something wasn't copied, which is told: why, in words.
    fn complain<K: Sink, C: Clock>(
        &mut self,
        teller: &mut Teller<'_, K, C>,
        path: &Path,
        why: &[u8],
    ) -> Result<(), Memory>
        ensures { self.new ≡ record self.old { wrong = true } }
    {
        self.is_wrong = true;
        teller.complain(path, why)
    }

    /// Tells which objects of a script weren't copied. At the status 0 each answer is `ok`.
    fn judge<K: Sink, C: Clock>(
        &mut self,
        alloc: Global,
        teller: &mut Teller<'_, K, C>,
        answers: &[u8],
        status: u8,
    ) -> Result<(), Memory>
        ensures { OnOk result (Judges status self.old self.new) }
    {
        if status == 0 {
            return Ok(());
        }
        match self.sent {
            Sent::Names => self.judge_names(alloc, teller, answers),
            Sent::Files => self.judge_files(alloc, teller, answers),
        }
    }

    /// A folder is there if it was made, or if its `stat` shows one; and a link if it was made, or if it leads where it is to.
    fn judge_names<K: Sink, C: Clock>(
        &mut self,
        alloc: Global,
        teller: &mut Teller<'_, K, C>,
        answers: &[u8],
    ) -> Result<(), Memory>
        ensures { OnOk result (OnlyWrong self.old self.new) }
    {
        let mut rest = answers;
        for at in 0..self.named.count() {
            let Some((made, after)) = next_answer(rest) else {
                return Ok(());
            };
            let Some((found, after)) = next_answer(after) else {
                return Ok(());
            };
            rest = after;
            self.judge_name(alloc, teller, at, &made, &found)?;
        }
        Ok(())
    }

    fn judge_name<K: Sink, C: Clock>(
        &mut self,
        alloc: Global,
        teller: &mut Teller<'_, K, C>,
        at: usize,
        made: &Answer<'_>,
        found: &Answer<'_>,
    ) -> Result<(), Memory>
        ensures { OnOk result (OnlyWrong self.old self.new) }
    {
        if made.is_ok() {
            return Ok(());
        }
        match self.named.missing(alloc, at, found)? {
            Some(path) => self.complain(teller, &path, made.words),
            None => Ok(()),
        }
    }

    /// Something of a script of files wasn't copied.
    fn judge_files<K: Sink, C: Clock>(
        &mut self,
        alloc: Global,
        teller: &mut Teller<'_, K, C>,
        answers: &[u8],
    ) -> Result<(), Memory>
        ensures { OnOk result (self.new ≡ record self.old { wrong = true }) }
    {
        self.is_wrong = true;
        self.tell_refusals(alloc, teller, answers)
    }

    /// The first answer of each file that isn't `ok` says why.
    fn tell_refusals<K: Sink, C: Clock>(
        &mut self,
        alloc: Global,
        teller: &mut Teller<'_, K, C>,
        answers: &[u8],
    ) -> Result<(), Memory>
        requires { self.old.wrong ≡ true }
        ensures { OnOk result (self.new ≡ self.old) }
    {
        let mut rest = answers;
        for _ in 0..MOST_ANSWERS {
            let Some((answer, after)) = next_answer(rest) else {
                return Ok(());
            };
            rest = after;
            self.tell_refusal(alloc, teller, &answer)?;
        }
        Ok(())
    }

    fn tell_refusal<K: Sink, C: Clock>(
        &mut self,
        alloc: Global,
        teller: &mut Teller<'_, K, C>,
        answer: &Answer<'_>,
    ) -> Result<(), Memory>
        ensures { OnOk result (self.new ≡ self.old) }
    {
        if answer.is_ok() {
            return Ok(());
        }
        match self.filed.untold(alloc, answer.number)? {
            Some(path) => teller.complain(&path, answer.words),
            None => Ok(()),
        }
    }

    /// What was answered is forgotten, but the file that goes on.
    fn forget(&mut self)
        ensures { self.new ≡ self.old }
    {
        match self.sent {
            Sent::Names => self.named.restart(false),
            Sent::Files => self.filed.restart(self.files.is_open()),
        }
    }

    /// The script of folders and links.
    fn send_names(&mut self, alloc: Global) -> Script
        ensures is { result ≡ self.old.names.lines }
        ensures asked { All IsAskedLine result }
        ensures few { length result ≤ 16384 }
        ensures names { All IsNameLine result }
        ensures rest { self.new ≡ record self.old { names = self.new.names; sent = sents.Names } }
    {
        self.sent = Sent::Names;
        Script::of(self.names.take(alloc))
    }

    /// The script of files.
    fn send_files(&mut self, alloc: Global) -> Script
        ensures is { result ≡ self.old.files.all.lines }
        ensures asked { All IsAskedLine result }
        ensures few { length result ≤ 16384 }
        ensures rest { self.new ≡ record self.old { files = taken self.old.files; sent = sents.Files } }
    {
        self.sent = Sent::Files;
        self.bytes = 0;
        Script::of(self.files.take(alloc))
    }
}

/// The end of the tree, if nothing waits. It can't be otherwise: a script that is full has a line.
fn ended(is_over: bool) -> Result<Option<Script>, Memory>
    ensures over { result ≡ Ok None → is_over ≡ true }
    ensures none { IfOk result (λ script. script ≡ None) }
{
    if is_over { Ok(None) } else { Err(Memory) }
}

/// A line that was added to a script. One that there is no room for ends the session.
fn planned(added: Result<(), PlanFault>) -> Result<(), Memory>
    ensures { OnOk result (added ≡ Ok tt) }
{
    match added {
        Ok(()) => Ok(()),
        Err(_) => Err(Memory),
    }
}

/// Whether a folder is the root.
fn is_root(path: &Path, node: &Node) -> bool
    ensures { OnTrue result (node.now ≡ nodes.Folder) }
{
    match node {
        Node::Folder => path.names().is_empty(),
        _ => false,
    }
}

/// Why a file didn't come whole, in words.
fn why_cut(cut: Cut) -> &'static [u8] {
    match cut {
        Cut::Unread(_) => b"can't be read to its end",
        Cut::Changed => b"changed while it was read",
    }
}

/// Whether a link can lead there: 1 to 1,024 bytes without a zero byte.
fn is_target(bytes: &[u8]) -> bool
    ensures may { OnTrue result (IsTarget bytes.now) }
    ensures not { OnFalse result (MayLink bytes.now → ⊥) }
{
    !bytes.is_empty() && bytes.len() <= MOST_TARGET && !bytes.contains(&0)
}
