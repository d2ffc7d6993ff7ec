//! A store of pages on a disk, which outlasts the program.

ghost use Rattle.std.specs.Prelude.{◌≡◌, ◌<◌, ◌≤◌, ◌+◌, ◌*◌, ◌↔◌, ℕ, List, [], Option, Some, None, true, slice_get, length, replicate, option_map};
ghost use Rattle.std.specs.Prelude.{MatchOption, IfOk, IfErr, OnOk, OnErr};
ghost use Rattle.page_store.specs.Disk.{Every, LeavesOnly};
ghost use Rattle.page_store.specs.Slots.{IsSound};
ghost use Rattle.page_store.specs.Labels.{AreNone, IsLabelled, IsRelabelled, Relabels, label_after, label_for};
ghost use Rattle.page_store.specs.Pages.{KeepsOnly, StoredPage, page_of, shows_page, stored_page};
ghost use Rattle.page_store.specs.Store.{IsOpened, IsStored, Stands, HasZeros, shown_at, pages_after, IsOf};
ghost use Rattle.page_store.specs.Rounds.{IsIn, IsUnderWay, IsEnded, KeepsAll, KeepsOrFills, ArePagesAfter, cleared, taken_in, round_after};
ghost use Rattle.page_store.specs.Faults.{HasStoreCause, IsFault};

use crate::format::{write_sized, write_zeros};
use crate::label::put_label;
use crate::opening::read_all;
use crate::put::{end_round, fill_page, put_page, shut_round};
use crate::record::{NO_STAMP, Stored, body_of};
use crate::round_pages::{are_none, clear_all, clear_slots, is_in, round_of, show_filled};
use crate::{Disk, StoreFault};
use nfs_types::{Handle, KeptPage, Stamp};
use std::alloc::Global;
use std::marker::Model;
use xdr_codec::{Blob, Memory};

/// How many slots there are if no other number is given.
const SLOTS: u32 = 1024;

/// A disk that wasn't opened, and why.
#[derive(Drop)]
pub struct OpenFault<D: Disk> {
    /// The disk as it is.
    pub disk: D,
    /// Why it wasn't opened.
    pub fault: StoreFault,
}

/// Pages in the slots of a disk, and a copy of each in memory. Behind the slots stands a label: what they are for.
#[derive(Drop)]
pub struct PageStore<D: Disk> {
    alloc: Global,
    disk: D,
    slots: Vec<Option<Stored>>,
    /// None for a slot outside of the round, Some(None) for one whose gate is closed, and then its page.
    round: Vec<Option<Option<Stored>>>,
    /// It stands in the place behind the slots.
    label: Option<Stored>,
}

impl<D: Disk> Model for PageStore<D> {
    ghost use Rattle.page_store.specs.Store.{StoreView};
    ghost use Rattle.page_store.specs.Rounds.{AreHeld};

    ghost Value = { StoreView D };

    ghost view = { λ s. record { disk = s.disk; pages = s.slots.items; round = s.round.items; label = s.label } };

    ghost invariant = { λ s. AreHeld s.slots.items s.round.items };
}

impl<D: Disk + Drop> PageStore<D> {
    /// Writes zeros over 1,024 slots and the place of the label, and syncs: each slot is closed, and there is no label. Nothing is
    /// claimed of a crash before that.
    pub fn format(alloc: Global, disk: &mut D) -> Result<(), StoreFault>
        ensures empty { D.tells disk.old → OnOk result (Every (D.may_leave disk.new) (HasZeros 4329600)) }
        ensures goes_on { D.tells disk.old → D.tells disk.new }
        ensures cause { HasStoreCause (D.faults disk.old) (D.faults disk.new) result }
    {
        write_zeros(alloc, disk)
    }

    /// The same for so many slots, from 1,024 to 65,536.
    pub fn format_sized(alloc: Global, disk: &mut D, slots: u32) -> Result<(), StoreFault>
        requires least { 1024 ≤ slots }
        requires most { slots ≤ 65536 }
        ensures empty { D.tells disk.old → OnOk result (Every (D.may_leave disk.new) (HasZeros (4224 * (slots + 1)))) }
        ensures goes_on { D.tells disk.old → D.tells disk.new }
        ensures cause { HasStoreCause (D.faults disk.old) (D.faults disk.new) result }
    {
        write_sized(alloc, disk, slots + 1)
    }

    /// Syncs, and reads 1,024 slots and the label. An open slot that breaks a rule of its fields counts as closed. On an error the
    /// disk is handed back.
    pub fn open(alloc: Global, disk: D) -> Result<PageStore<D>, OpenFault<D>>
        ensures opened { D.tells disk → IfOk result (λ s. IsOpened 1024 (D.may_leave disk) (D.seen s.disk) (D.may_leave s.disk) s.pages) }
        ensures count { IfOk result (λ s. length s.pages ≡ 1024) }
        ensures labelled { D.tells disk → IfOk result (λ s. IsLabelled (D.seen s.disk) 1024 s.label) }
        ensures any_moment { D.tells disk → IfOk result (λ s. LeavesOnly D.moment D.left_since disk s.disk (D.may_leave disk)) }
        ensures goes_on { D.tells disk → IfOk result (λ s. D.tells s.disk) }
        ensures handed_back { D.tells disk → IfErr result (λ e. D.tells e.disk × Every (D.may_leave e.disk) (D.may_leave disk)) }
        ensures later { IfOk result (λ s. D.faults disk ≤ D.faults s.disk) }
        ensures cause { IfErr result (λ e. IsFault (D.faults disk) (D.faults e.disk) e.fault) }
    {
        PageStore::open_sized(alloc, disk, SLOTS)
    }

    /// The same for so many slots, from 1,024 to 65,536.
    pub fn open_sized(alloc: Global, disk: D, slots: u32) -> Result<PageStore<D>, OpenFault<D>>
        requires least { 1024 ≤ slots }
        requires most { slots ≤ 65536 }
        ensures opened { D.tells disk → IfOk result (λ s. IsOpened slots (D.may_leave disk) (D.seen s.disk) (D.may_leave s.disk) s.pages) }
        ensures count { IfOk result (λ s. length s.pages ≡ slots) }
        ensures labelled { D.tells disk → IfOk result (λ s. IsLabelled (D.seen s.disk) slots s.label) }
        ensures any_moment { D.tells disk → IfOk result (λ s. LeavesOnly D.moment D.left_since disk s.disk (D.may_leave disk)) }
        ensures goes_on { D.tells disk → IfOk result (λ s. D.tells s.disk) }
        ensures handed_back { D.tells disk → IfErr result (λ e. D.tells e.disk × Every (D.may_leave e.disk) (D.may_leave disk)) }
        ensures later { IfOk result (λ s. D.faults disk ≤ D.faults s.disk) }
        ensures cause { IfErr result (λ e. IsFault (D.faults disk) (D.faults e.disk) e.fault) }
    {
        let mut disk = disk;
        match read_all(alloc, &mut disk, slots) {
            Ok((slots, label)) => Ok(PageStore {
                alloc,
                disk,
                slots,
                round: Vec::new(alloc),
                label,
            }),
            Err(fault) => Err(OpenFault { disk, fault }),
        }
    }

    /// The disk as it is.
    pub fn into_disk(self) -> D
        ensures { result ≡ self.disk }
    {
        self.disk
    }

    /// How many slots it has: from 1,024 to 65,536.
    pub fn count(&self) -> u32
        ensures count { result ≡ length self.now.pages }
        ensures least { 1024 ≤ length self.now.pages }
        ensures most { length self.now.pages ≤ 65536 }
    {
        self.slots.len() as u32
    }

    /// The words of the label; None exactly if there is no label.
    pub fn words(&self) -> Option<&[u8]>
        ensures { option_map (λ words. words.now) result ≡ option_map (λ (page : StoredPage). page.bytes) self.now.label }
    {
        bytes_in(&self.label)
    }

    /// The handle of the root in the label; None exactly if there is no label.
    pub fn root(&self) -> Option<Handle>
        ensures { result ≡ option_map (λ (page : StoredPage). page.file) self.now.label }
    {
        match &self.label {
            Some(label) => Some(label.file()),
            None => None,
        }
    }

    /// Whether no slot shows a page.
    pub fn is_empty(&self) -> bool
        ensures { (result ≡ true) ↔ AreNone self.now.pages }
    {
        are_none(self.slots.as_slice())
    }

    /// Closes all slots, and puts a label of at most 4,096 bytes behind them. A crash at any moment leaves pages and a label that
    /// stood there before, or this label and no page. After an error there is no label in memory. A round that is under way is
    /// dropped.
    pub fn set_label(&mut self, root: &Handle, words: &[u8]) -> Result<(), StoreFault>
        requires { length words.now ≤ 4096 }
        ensures safe { D.tells self.old.disk → (n : ℕ) → length self.old.pages < n → IsSound n (D.may_leave self.old.disk)
            → IsSound n (D.may_leave self.new.disk) }
        ensures leaves { D.tells self.old.disk → (n : ℕ) → length self.old.pages < n → IsSound n (D.may_leave self.old.disk)
            → Every (D.may_leave self.new.disk)
            (Relabels (length self.old.pages) (label_for (length self.old.pages) root.now words.now) (D.may_leave self.old.disk)) }
        ensures any_moment { D.tells self.old.disk → (n : ℕ) → length self.old.pages < n → IsSound n (D.may_leave self.old.disk)
            → LeavesOnly D.moment D.left_since self.old.disk self.new.disk
            (Relabels (length self.old.pages) (label_for (length self.old.pages) root.now words.now) (D.may_leave self.old.disk)) }
        ensures labelled { D.tells self.old.disk → (n : ℕ) → length self.old.pages < n → IsSound n (D.may_leave self.old.disk)
            → OnOk result (IsRelabelled (length self.old.pages) (label_for (length self.old.pages) root.now words.now)
            (D.seen self.new.disk) (D.may_leave self.new.disk)) }
        ensures none { AreNone self.new.pages }
        ensures count { length self.new.pages ≡ length self.old.pages }
        ensures round { self.new.round ≡ [] }
        ensures label { self.new.label ≡ label_after (label_for (length self.old.pages) root.now words.now) result }
        ensures goes_on { D.tells self.old.disk → D.tells self.new.disk }
        ensures cause { HasStoreCause (D.faults self.old.disk) (D.faults self.new.disk) result }
    {
        let slots = self.slots.len() as u32;
        self.round.truncate(0);
        self.label = None;
        clear_all(&mut self.slots);
        let Ok((label, body)) = prepared(self.alloc, root, &NO_STAMP, slots as u64, words) else {
            return Err(StoreFault::Memory);
        };
        match put_label(self.alloc, &mut self.disk, slots, body.bytes()) {
            Ok(()) => {
                self.label = Some(label);
                Ok(())
            }
            Err(fault) => Err(fault),
        }
    }

    /// The page of a slot; None exactly if the slot counts as closed, or isn't below the number of slots.
    pub fn slot_page(&self, slot: u32) -> Option<KeptPage<'_>>
        ensures { option_map shows_page result ≡ shown_at slot self.now.pages }
    {
        match self.slots.get(slot as usize) {
            Some(shown) => page_in(shown),
            None => None,
        }
    }

    /// The bytes of a file's page under that stamp; None exactly if no slot has it.
    pub fn find(&self, file: &Handle, stamp: &Stamp, index: u64) -> Option<&[u8]>
        ensures { MatchOption result ((k : ℕ) (page : Option StoredPage) → slice_get self.now.pages k ≡ Some page → IsOf file.now stamp.now index page → ⊥)
            (λ bytes. (k : ℕ) × (slice_get self.now.pages k ≡ Some (Some (stored_page file.now stamp.now index bytes.now)))) }
    {
        for shown in self.slots.iter() {
            if has_page(shown, file, stamp, index) {
                return bytes_in(shown);
            }
        }
        None
    }

    /// Stores a page of at most 4,096 bytes in a slot below the number of slots. A crash at any moment leaves pages that stood there before, or there
    /// this one. After an error the slot counts as closed. `Memory` if memory ran out here, or in the disk. A round that is under way
    /// is dropped: its slots stay closed.
    pub fn store(
        &mut self,
        slot: u32,
        file: &Handle,
        stamp: &Stamp,
        index: u64,
        bytes: &[u8],
    ) -> Result<(), StoreFault>
        requires slot { slot < length self.old.pages }
        requires page { length bytes.now ≤ 4096 }
        ensures safe { D.tells self.old.disk → (n : ℕ) → slot < n → IsSound n (D.may_leave self.old.disk) → IsSound n (D.may_leave self.new.disk) }
        ensures leaves { D.tells self.old.disk → (n : ℕ) → slot < n → IsSound n (D.may_leave self.old.disk)
            → Every (D.may_leave self.new.disk) (KeepsOnly n slot (stored_page file.now stamp.now index bytes.now) (D.may_leave self.old.disk)) }
        ensures any_moment { D.tells self.old.disk → (n : ℕ) → slot < n → IsSound n (D.may_leave self.old.disk)
            → LeavesOnly D.moment D.left_since self.old.disk self.new.disk
            (KeepsOnly n slot (stored_page file.now stamp.now index bytes.now) (D.may_leave self.old.disk)) }
        ensures stored { D.tells self.old.disk → (n : ℕ) → slot < n → IsSound n (D.may_leave self.old.disk)
            → OnOk result (IsStored slot (stored_page file.now stamp.now index bytes.now) (D.seen self.new.disk) (D.may_leave self.new.disk)) }
        ensures stands { D.tells self.old.disk → IsSound (length self.old.pages) (D.may_leave self.old.disk) → Stands (D.may_leave self.old.disk) self.old.pages
            → Stands (D.may_leave self.new.disk) self.new.pages }
        ensures pages { self.new.pages ≡ pages_after slot (stored_page file.now stamp.now index bytes.now) result self.old.pages }
        ensures round { self.new.round ≡ [] }
        ensures label { self.new.label ≡ self.old.label }
        ensures goes_on { D.tells self.old.disk → D.tells self.new.disk }
        ensures cause { HasStoreCause (D.faults self.old.disk) (D.faults self.new.disk) result }
    {
        self.round.truncate(0);
        self.slots[slot as usize] = None;
        let Ok((stored, body)) = prepared(self.alloc, file, stamp, index, bytes) else {
            return Err(StoreFault::Memory);
        };
        match put_page(&mut self.disk, slot, body.bytes()) {
            Ok(()) => {
                self.slots[slot as usize] = Some(stored);
                Ok(())
            }
            Err(fault) => Err(fault),
        }
    }

    /// Begins a round, which stores into several slots with one sync for each of its three steps: closes the gates of these
    /// slots, and syncs. A slot that isn't below the number of slots is left out. Of a round that was under way the slots stay
    /// closed. After an error there is no round.
    pub fn begin(&mut self, slots: &[u32]) -> Result<(), StoreFault>
        ensures safe { D.tells self.old.disk → (n : ℕ) → length self.old.pages ≤ n → IsSound n (D.may_leave self.old.disk)
            → IsSound n (D.may_leave self.new.disk) }
        ensures leaves { D.tells self.old.disk → (n : ℕ) → length self.old.pages ≤ n → IsSound n (D.may_leave self.old.disk)
            → Every (D.may_leave self.new.disk) (KeepsAll n (D.may_leave self.old.disk)) }
        ensures any_moment { D.tells self.old.disk → (n : ℕ) → length self.old.pages ≤ n → IsSound n (D.may_leave self.old.disk)
            → LeavesOnly D.moment D.left_since self.old.disk self.new.disk (KeepsAll n (D.may_leave self.old.disk)) }
        ensures stands { D.tells self.old.disk → IsSound (length self.old.pages) (D.may_leave self.old.disk)
            → Stands (D.may_leave self.old.disk) self.old.pages → Stands (D.may_leave self.new.disk) self.new.pages }
        ensures under_way { D.tells self.old.disk → IsSound (length self.old.pages) (D.may_leave self.old.disk)
            → IsUnderWay (D.seen self.new.disk) (D.may_leave self.new.disk) self.new.round }
        ensures pages { self.new.pages ≡ cleared slots.now self.old.pages }
        ensures round { OnOk result (self.new.round ≡ taken_in slots.now (replicate (length self.old.pages) None)) }
        ensures none { OnErr result (self.new.round ≡ []) }
        ensures label { self.new.label ≡ self.old.label }
        ensures goes_on { D.tells self.old.disk → D.tells self.new.disk }
        ensures cause { HasStoreCause (D.faults self.old.disk) (D.faults self.new.disk) result }
    {
        self.round.truncate(0);
        clear_slots(&mut self.slots, slots);
        let Ok(round) = round_of(self.alloc, self.slots.as_slice(), slots) else {
            return Err(StoreFault::Memory);
        };
        match shut_round(&mut self.disk, round.as_slice()) {
            Ok(()) => {
                self.round = round;
                Ok(())
            }
            Err(fault) => Err(fault),
        }
    }

    /// Writes a page of at most 4,096 bytes into a slot of the round, without a sync. False, with nothing done, exactly if
    /// the slot isn't in the round. After an error there is no round, and its slots stay closed.
    pub fn fill(
        &mut self,
        slot: u32,
        file: &Handle,
        stamp: &Stamp,
        index: u64,
        bytes: &[u8],
    ) -> Result<bool, StoreFault>
        requires { length bytes.now ≤ 4096 }
        ensures safe { D.tells self.old.disk → (n : ℕ) → length self.old.pages ≤ n → IsSound n (D.may_leave self.old.disk)
            → IsUnderWay (D.seen self.old.disk) (D.may_leave self.old.disk) self.old.round → IsSound n (D.may_leave self.new.disk) }
        ensures leaves { D.tells self.old.disk → (n : ℕ) → length self.old.pages ≤ n → IsSound n (D.may_leave self.old.disk)
            → IsUnderWay (D.seen self.old.disk) (D.may_leave self.old.disk) self.old.round
            → Every (D.may_leave self.new.disk) (KeepsAll n (D.may_leave self.old.disk)) }
        ensures any_moment { D.tells self.old.disk → (n : ℕ) → length self.old.pages ≤ n → IsSound n (D.may_leave self.old.disk)
            → IsUnderWay (D.seen self.old.disk) (D.may_leave self.old.disk) self.old.round
            → LeavesOnly D.moment D.left_since self.old.disk self.new.disk (KeepsAll n (D.may_leave self.old.disk)) }
        ensures stands { D.tells self.old.disk → IsSound (length self.old.pages) (D.may_leave self.old.disk)
            → Stands (D.may_leave self.old.disk) self.old.pages → Stands (D.may_leave self.new.disk) self.new.pages }
        ensures under_way { D.tells self.old.disk → IsSound (length self.old.pages) (D.may_leave self.old.disk)
            → IsUnderWay (D.seen self.old.disk) (D.may_leave self.old.disk) self.old.round
            → IsUnderWay (D.seen self.new.disk) (D.may_leave self.new.disk) self.new.round }
        ensures is_in { IfOk result (λ yes. (yes ≡ true) ↔ IsIn self.old.round slot) }
        ensures pages { self.new.pages ≡ self.old.pages }
        ensures round { self.new.round ≡ round_after slot (stored_page file.now stamp.now index bytes.now) result self.old.round }
        ensures label { self.new.label ≡ self.old.label }
        ensures goes_on { D.tells self.old.disk → D.tells self.new.disk }
        ensures cause { HasStoreCause (D.faults self.old.disk) (D.faults self.new.disk) result }
    {
        if !is_in(self.round.as_slice(), slot) {
            return Ok(false);
        }
        let Ok((stored, body)) = prepared(self.alloc, file, stamp, index, bytes) else {
            self.round.truncate(0);
            return Err(StoreFault::Memory);
        };
        match fill_page(&mut self.disk, slot, body.bytes()) {
            Ok(()) => {
                self.round[slot as usize] = Some(Some(stored));
                Ok(true)
            }
            Err(fault) => {
                self.round.truncate(0);
                Err(fault)
            }
        }
    }

    /// Ends the round: syncs, opens the gate of each slot that was filled, and syncs. A crash at any moment leaves pages that
    /// stood there before, or in a slot of the round the page that it was filled with. At `Ok` these stand there. After an
    /// error all slots of the round count as closed.
    pub fn finish(&mut self) -> Result<(), StoreFault>
        ensures safe { D.tells self.old.disk → (n : ℕ) → length self.old.pages ≤ n → IsSound n (D.may_leave self.old.disk)
            → IsSound n (D.may_leave self.new.disk) }
        ensures leaves { D.tells self.old.disk → (n : ℕ) → length self.old.pages ≤ n → IsSound n (D.may_leave self.old.disk)
            → IsUnderWay (D.seen self.old.disk) (D.may_leave self.old.disk) self.old.round
            → Every (D.may_leave self.new.disk) (KeepsOrFills n self.old.round (D.may_leave self.old.disk)) }
        ensures any_moment { D.tells self.old.disk → (n : ℕ) → length self.old.pages ≤ n → IsSound n (D.may_leave self.old.disk)
            → IsUnderWay (D.seen self.old.disk) (D.may_leave self.old.disk) self.old.round
            → LeavesOnly D.moment D.left_since self.old.disk self.new.disk (KeepsOrFills n self.old.round (D.may_leave self.old.disk)) }
        ensures ended { D.tells self.old.disk → IsSound (length self.old.pages) (D.may_leave self.old.disk)
            → IsUnderWay (D.seen self.old.disk) (D.may_leave self.old.disk) self.old.round
            → OnOk result (IsEnded self.old.round (D.seen self.new.disk) (D.may_leave self.new.disk)) }
        ensures stands { D.tells self.old.disk → IsSound (length self.old.pages) (D.may_leave self.old.disk)
            → IsUnderWay (D.seen self.old.disk) (D.may_leave self.old.disk) self.old.round
            → Stands (D.may_leave self.old.disk) self.old.pages → Stands (D.may_leave self.new.disk) self.new.pages }
        ensures pages { ArePagesAfter self.old.round result self.old.pages self.new.pages }
        ensures round { self.new.round ≡ [] }
        ensures label { self.new.label ≡ self.old.label }
        ensures goes_on { D.tells self.old.disk → D.tells self.new.disk }
        ensures cause { HasStoreCause (D.faults self.old.disk) (D.faults self.new.disk) result }
    {
        match end_round(&mut self.disk, self.round.as_slice()) {
            Ok(()) => {
                show_filled(&mut self.slots, &mut self.round);
                self.round.truncate(0);
                Ok(())
            }
            Err(fault) => {
                self.round.truncate(0);
                Err(fault)
            }
        }
    }
}

/// A page in memory, and its body.
fn prepared(
    alloc: Global,
    file: &Handle,
    stamp: &Stamp,
    index: u64,
    bytes: &[u8],
) -> Result<(Stored, Blob), Memory>
    requires { length bytes.now ≤ 4096 }
    ensures page { IfOk result (λ both. both.0 ≡ stored_page file.now stamp.now index bytes.now) }
    ensures long { IfOk result (λ both. length both.1 ≡ 4220) }
    ensures again { IfOk result (λ both. page_of both.1 ≡ Some (stored_page file.now stamp.now index bytes.now)) }
{
    let stored = Stored::copy(alloc, file, stamp, index, bytes)?;
    let body = body_of(alloc, file, stamp, index, bytes)?;
    Ok((stored, body))
}

/// The page of a slot, if it has one.
fn page_in(shown: &Option<Stored>) -> Option<KeptPage<'_>>
    ensures { option_map shows_page result ≡ shown.now }
{
    match shown {
        Some(stored) => Some(stored.page()),
        None => None,
    }
}

/// The bytes of a slot's page, if it has one.
fn bytes_in(shown: &Option<Stored>) -> Option<&[u8]>
    ensures { option_map (λ bytes. bytes.now) result ≡ option_map (λ (page : StoredPage). page.bytes) shown.now }
{
    match shown {
        Some(stored) => Some(stored.bytes()),
        None => None,
    }
}

/// Whether a slot has the page of this file, stamp and number.
fn has_page(shown: &Option<Stored>, file: &Handle, stamp: &Stamp, index: u64) -> bool
    ensures { (result ≡ true) ↔ IsOf file.now stamp.now index shown.now }
{
    match shown {
        Some(stored) => stored.is(file, stamp, index),
        None => false,
    }
}
