//! A copy from a server to a target.

ghost use Rattle.std.specs.Prelude.{◌≡◌, ◌≤◌, [], false, IfOk, IfSome, OnOk, Some, All};
ghost use Rattle.copy_plan.specs.Lines.{IsNameLine};
ghost use Rattle.fetch_scripts.specs.Downloads.{IsScript};
ghost use Rattle.fetch_scripts.specs.Fetches.{AddsFiles, AreOthers, Gave, NextIs, SendsNext, SpansTook, TakesAnswers, at_start, sent};

use crate::answers::Answers;
use crate::blame::Blame;
use crate::file_reads::FileReads;
use crate::name_reads::NameReads;
use crate::taking_files::take_files;
pub use crate::taking_names::Skips;
use crate::taking_names::{take_folders, take_links, take_unseen};
use crate::walk::{Found, Walk};
use copy_scripts::Teller;
use copy_targets::Target;
use nfs_script::Script;
use outside::{Clock, Sink};
use std::alloc::Global;
use std::marker::Model;
use world_model::Path;
use xdr_codec::Memory;

/// Which script is answered.
#[derive(Clone, Copy, PartialEq, Eq)]
enum Sent {
    /// None was sent.
    Nothing,
    /// That shows what stands at paths.
    Unseen,
    /// That lists folders.
    Folders,
    /// That reads files.
    Files,
    /// That reads links.
    Links,
}

/// The number of the first line of the script that is answered, and how many it has.
#[derive(Clone, Copy)]
struct Numbers {
    first: u32,
    count: usize,
}

/// A copy from a server that is under way.
#[derive(Drop)]
pub struct Download {
    skips: Skips,
    blame: Blame,
    walk: Walk,
    names: NameReads,
    files: FileReads,
    sent: Sent,
    numbers: Numbers,
    /// Whether the target took what came so far of the file that goes on.
    is_taken: bool,
}

impl Model for Download {
    ghost use Rattle.fetch_scripts.specs.Fetches.{DownloadView};

    ghost Value = { DownloadView };

    ghost view = { λ d. record { from = d.blame.from; wrong = d.blame.wrong; files = d.files.files; spans = d.files.spans; taken = d.is_taken } };
}

impl Download {
    /// What stands at a path of the server is to be copied.
    pub fn new(alloc: Global, from: Path, skips: Skips) -> Result<Download, Memory>
        ensures { IfOk result (λ d. d ≡ at_start from) }
    {
        Ok(Download {
            skips,
            blame: Blame::new(from),
            walk: Walk::new(alloc)?,
            names: NameReads::new(alloc),
            files: FileReads::new(alloc),
            sent: Sent::Nothing,
            numbers: Numbers { first: 1, count: 0 },
            is_taken: false,
        })
    }

    /// Whether something wasn't copied.
    pub fn is_wrong(&self) -> bool
        ensures { result ≡ self.now.wrong }
    {
        self.blame.is_wrong()
    }

    /// The next script, by the answers to the one before; none at the end.
    pub fn next<T: Target, K: Sink, C: Clock>(
        &mut self,
        alloc: Global,
        target: &mut T,
        teller: &mut Teller<'_, K, C>,
        answers: &[u8],
    ) -> Result<Option<Script>, Memory>
        ensures script { IfOk result (λ next. IfSome next IsScript) }
        ensures goes { IfOk result (λ next. Gave (T.took target.old) (T.took target.new) (NextIs answers.now next self.old self.new)) }
    {
        let answers = Answers::read(alloc, answers, self.numbers.first, self.numbers.count)?;
        self.take(alloc, target, teller, &answers)?;
        teller.tell_progress()?;
        self.ask(alloc)
    }

    /// Takes what was answered: the bytes of files, or what else the script asked for.
    fn take<T: Target, K: Sink, C: Clock>(
        &mut self,
        alloc: Global,
        target: &mut T,
        teller: &mut Teller<'_, K, C>,
        answers: &Answers<'_>,
    ) -> Result<(), Memory>
        ensures { IfOk result (λ _. Gave (T.took target.old) (T.took target.new) (TakesAnswers answers.now.text.now self.old self.new)) }
    {
        self.take_files(alloc, target, teller, answers)?;
        self.take_names(alloc, target, teller, answers)
    }

    fn take_files<T: Target, K: Sink, C: Clock>(
        &mut self,
        alloc: Global,
        target: &mut T,
        teller: &mut Teller<'_, K, C>,
        answers: &Answers<'_>,
    ) -> Result<(), Memory>
        ensures took { IfOk result (λ _. Gave (T.took target.old) (T.took target.new)
            (SpansTook answers.now.text.now self.old.spans self.old.taken self.new.taken)) }
        ensures rest { OnOk result (self.new ≡ record self.old { wrong = self.new.wrong; spans = []; taken = self.new.taken }) }
    {
        let spans = self.files.spans(alloc);
        let was_taken = self.is_taken;
        self.is_taken = take_files(
            alloc,
            target,
            teller,
            &mut self.blame,
            spans.as_slice(),
            answers,
            was_taken,
        )?;
        Ok(())
    }

    /// Takes what a script of names asked for.
    fn take_names<T: Target, K: Sink, C: Clock>(
        &mut self,
        alloc: Global,
        target: &mut T,
        teller: &mut Teller<'_, K, C>,
        answers: &Answers<'_>,
    ) -> Result<(), Memory>
        ensures took { IfOk result (λ _. Gave (T.took target.old) (T.took target.new) AreOthers) }
        ensures rest { OnOk result (self.new ≡ record self.old { wrong = self.new.wrong }) }
    {
        match self.sent {
            Sent::Nothing | Sent::Files => Ok(()),
            Sent::Unseen => self.take_unseen(alloc, target, teller, answers),
            Sent::Folders => self.take_folders(alloc, target, teller, answers),
            Sent::Links => self.take_links(alloc, target, teller, answers),
        }
    }

    fn take_unseen<T: Target, K: Sink, C: Clock>(
        &mut self,
        alloc: Global,
        target: &mut T,
        teller: &mut Teller<'_, K, C>,
        answers: &Answers<'_>,
    ) -> Result<(), Memory>
        ensures took { IfOk result (λ _. Gave (T.took target.old) (T.took target.new) AreOthers) }
        ensures rest { OnOk result (self.new ≡ record self.old { wrong = self.new.wrong }) }
    {
        let asked = self.names.asked(alloc);
        let (blame, walk) = (&mut self.blame, &mut self.walk);
        take_unseen(
            alloc, target, teller, blame, walk, self.skips, asked, answers,
        )
    }

    fn take_folders<T: Target, K: Sink, C: Clock>(
        &mut self,
        alloc: Global,
        target: &mut T,
        teller: &mut Teller<'_, K, C>,
        answers: &Answers<'_>,
    ) -> Result<(), Memory>
        ensures took { IfOk result (λ _. Gave (T.took target.old) (T.took target.new) AreOthers) }
        ensures rest { OnOk result (self.new ≡ record self.old { wrong = self.new.wrong }) }
    {
        let asked = self.names.asked(alloc);
        let (blame, walk) = (&mut self.blame, &mut self.walk);
        take_folders(alloc, target, teller, blame, walk, asked, answers)
    }

    fn take_links<T: Target, K: Sink, C: Clock>(
        &mut self,
        alloc: Global,
        target: &mut T,
        teller: &mut Teller<'_, K, C>,
        answers: &Answers<'_>,
    ) -> Result<(), Memory>
        ensures took { IfOk result (λ _. Gave (T.took target.old) (T.took target.new) AreOthers) }
        ensures rest { OnOk result (self.new ≡ record self.old { wrong = self.new.wrong }) }
    {
        let asked = self.names.asked(alloc);
        take_links(alloc, target, teller, &mut self.blame, asked, answers)
    }

    /// Asks for what comes next. Files that were found go before further folders, so that few paths wait.
    fn ask(&mut self, alloc: Global) -> Result<Option<Script>, Memory>
        ensures script { IfOk result (λ next. IfSome next IsScript) }
        ensures sends { IfOk result (λ next. SendsNext self.old self.new next) }
    {
        if self.files.is_open() || !self.walk.files.is_empty() {
            let script = self.ask_files(alloc)?;
            return Ok(Some(script));
        }
        match self.names_left() {
            Sent::Nothing | Sent::Files => Ok(None),
            sent => {
                let script = self.ask_names(alloc, sent)?;
                Ok(Some(script))
            }
        }
    }

    /// Which names are asked for next: links only when nothing else is left.
    fn names_left(&self) -> Sent {
        if !self.walk.unseen.is_empty() {
            return Sent::Unseen;
        }
        if !self.walk.folders.is_empty() {
            return Sent::Folders;
        }
        if !self.walk.links.is_empty() {
            return Sent::Links;
        }
        Sent::Nothing
    }

    /// Asks for names.
    fn ask_names(&mut self, alloc: Global, sent: Sent) -> Result<Script, Memory>
        ensures script { IfOk result IsScript }
        ensures names { IfOk result (λ next. All IsNameLine next) }
        ensures rest { OnOk result (self.new ≡ record self.old { wrong = self.new.wrong }) }
    {
        self.add_names(alloc, sent)?;
        self.sent = sent;
        self.numbers = numbers_of(self.names.next(), self.names.count());
        Ok(self.names.take(alloc))
    }

    fn add_names(&mut self, alloc: Global, sent: Sent) -> Result<(), Memory>
        ensures { OnOk result (self.new ≡ record self.old { wrong = self.new.wrong }) }
    {
        let (names, blame, walk) = (&mut self.names, &mut self.blame, &mut self.walk);
        match sent {
            Sent::Nothing | Sent::Files => Ok(()),
            Sent::Unseen => names.show(alloc, blame, &mut walk.unseen),
            Sent::Folders => names.list(alloc, blame, &mut walk.folders),
            Sent::Links => names.read(alloc, blame, &mut walk.links),
        }
    }

    /// Asks for the bytes of files.
    fn ask_files(&mut self, alloc: Global) -> Result<Script, Memory>
        ensures script { IfOk result IsScript }
        ensures sends { IfOk result (λ next. SendsNext self.old self.new (Some next)) }
    {
        self.go_on(alloc)?;
        self.add_files(alloc)?;
        Ok(self.send_files(alloc))
    }

    /// Goes on with the file that is open.
    fn go_on(&mut self, alloc: Global) -> Result<(), Memory>
        ensures { OnOk result (AddsFiles self.old self.new) }
    {
        self.files.go_on(alloc, self.is_taken)
    }

    /// The script of files, which is done.
    fn send_files(&mut self, alloc: Global) -> Script
        ensures script { IsScript result }
        ensures is { result ≡ self.old.files.all.lines }
        ensures rest { self.new ≡ record self.old { files = sent self.old.files } }
    {
        self.sent = Sent::Files;
        self.numbers = numbers_of(self.files.next(), self.files.count());
        self.files.take(alloc)
    }

    /// Adds files until the script is full.
    fn add_files(&mut self, alloc: Global) -> Result<(), Memory>
        ensures { OnOk result (AddsFiles self.old self.new) }
    {
        for _ in 0..u64::MAX {
            if self.files.is_full() {
                return Ok(());
            }
            let Some(found) = self.walk.files.pop() else {
                return Ok(());
            };
            self.open_file(alloc, found)?;
        }
        Ok(())
    }

    fn open_file(&mut self, alloc: Global, found: Found) -> Result<(), Memory>
        ensures { OnOk result (AddsFiles self.old self.new) }
    {
        match self.blame.named(alloc, &found.path)? {
            Some(full) => self.files.open(alloc, found.path, found.size, full),
            None => Ok(()),
        }
    }
}

/// The numbers of so many lines, by that of the next one.
fn numbers_of(next: u32, count: usize) -> Numbers
    requires { count ≤ 16384 }
{
    Numbers {
        first: next.saturating_sub(count as u32),
        count,
    }
}
