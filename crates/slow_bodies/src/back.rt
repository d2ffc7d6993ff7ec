//! Pending bytes in a list of segments, those in flight among them.

ghost use Rattle.std.specs.Prelude.{◌<◌, length, IfSome};

use crate::piece::OwnPiece;
use crate::segment::{Due, Fate, Segment, push_part};
use commit_verf::Verdict;
use nfs_types::{Handle, Verf};
use std::alloc::{AllocError, Global};

/// The most bytes that may be pending.
const MOST: u64 = 4_194_304;

/// What `WriteBack` keeps, by the rules of its calls. Each call answers as that of the same name.
#[derive(Drop)]
pub struct SlowBack {
    alloc: Global,
    segments: Vec<Segment>,
}

impl SlowBack {
    /// Nothing is pending.
    pub fn new(alloc: Global) -> SlowBack {
        SlowBack {
            alloc,
            segments: Vec::new(alloc),
        }
    }

    /// Adds bytes that were written: whether there is room for them.
    pub fn add(
        &mut self,
        file: &Handle,
        offset: u64,
        bytes: &[u8],
        number: u64,
    ) -> Result<bool, AllocError> {
        if self.pending().saturating_add(bytes.len() as u64) > MOST {
            return Ok(false);
        }
        if bytes.is_empty() {
            return Ok(true);
        }
        let new = Segment {
            file: *file,
            offset,
            bytes: bytes.to_vec(self.alloc)?,
            number,
            fate: Fate::Waits(Due::Unsent),
        };
        let mut list = Vec::new(self.alloc);
        for old in self.segments.iter() {
            self.push_beside(&mut list, old, &new)?;
        }
        list.push(new)?;
        self.segments = list;
        Ok(true)
    }

    /// An older segment loses what a new one covers; in flight it is only cut at its ends.
    fn push_beside(
        &self,
        list: &mut Vec<Segment>,
        old: &Segment,
        new: &Segment,
    ) -> Result<(), AllocError> {
        if !old.meets(new) {
            return push_part(self.alloc, list, old, 0, u64::MAX, old.fate);
        }
        push_part(self.alloc, list, old, 0, new.offset, old.fate)?;
        if old.flies() {
            push_part(self.alloc, list, old, new.offset, new.end(), old.fate)?;
        }
        push_part(self.alloc, list, old, new.end(), u64::MAX, old.fate)
    }

    /// Whether a segment may be sent: it waits, is old enough, and shares no place with one in flight.
    fn may_go(&self, segment: &Segment, upto: u64) -> bool {
        segment.how().is_some()
            && segment.number <= upto
            && !self
                .segments
                .iter()
                .any(|other| other.flies() && other.meets(segment))
    }

    /// Of a file's segments that may be sent, where that of the lowest offset begins, and how it is to be sent.
    fn first_to_go(&self, file: &Handle, upto: u64) -> Option<(u64, u32)> {
        let mut first: Option<(u64, u32)> = None;
        for segment in self.segments.iter() {
            let lower = match first {
                None => true,
                Some((offset, _)) => segment.offset < offset,
            };
            if lower && segment.file == *file && self.may_go(segment, upto) {
                first = Some((segment.offset, segment.how().unwrap_or(0)));
            }
        }
        first
    }

    /// Puts a piece in flight. It begins at the lowest offset of a segment that may go. It goes on through segments that
    /// touch it, may go and are to be sent alike, until it has `wsize` bytes.
    pub fn next_to_send(
        &mut self,
        file: &Handle,
        upto: u64,
        wsize: u32,
        xid: u32,
    ) -> Result<Option<OwnPiece>, AllocError> {
        let (start, how) = match self.first_to_go(file, upto) {
            None => return Ok(None),
            Some(first) => first,
        };
        let end = start.saturating_add(u64::from(wsize));
        let mut place = start;
        for _ in 0..wsize {
            match self.next_of_run(file, upto, place, how) {
                Some(at) if place < end => place = self.send_front(at, end, xid)?,
                _ => break,
            }
        }
        self.in_flight(file, xid)
    }

    /// The segment that begins at a place, may go and is to be sent in that way.
    fn next_of_run(&self, file: &Handle, upto: u64, place: u64, how: u32) -> Option<usize>
        ensures { IfSome result (λ at. at < length self.now.segments.items) }
    {
        self.segments.iter().position(|segment| {
            segment.offset == place
                && segment.how() == Some(how)
                && segment.file == *file
                && self.may_go(segment, upto)
        })
    }

    /// Sends what a segment has before a place, and tells where that ends.
    fn send_front(&mut self, at: usize, end: u64, xid: u32) -> Result<u64, AllocError>
        requires { at < length self.old.segments.items }
    {
        let segment = self.segments.remove(at);
        let sent = segment.sent(xid);
        push_part(self.alloc, &mut self.segments, &segment, 0, end, sent)?;
        push_part(
            self.alloc,
            &mut self.segments,
            &segment,
            end,
            u64::MAX,
            segment.fate,
        )?;
        Ok(segment.end().min(end))
    }

    /// The piece in flight under an xid: all segments that are so, by offset.
    pub fn in_flight(&self, file: &Handle, xid: u32) -> Result<Option<OwnPiece>, AllocError> {
        let (offset, how) = match self.start_of(file, xid) {
            None => return Ok(None),
            Some(start) => start,
        };
        let mut bytes = Vec::new(self.alloc);
        for place in offset..self.end(file).unwrap_or(offset) {
            match self.flying_byte(file, xid, place) {
                None => break,
                Some(byte) => bytes.push(byte)?,
            }
        }
        Ok(Some(OwnPiece { offset, bytes, how }))
    }

    /// Where the piece in flight under an xid begins, and how it was sent.
    fn start_of(&self, file: &Handle, xid: u32) -> Option<(u64, u32)> {
        let mut start: Option<(u64, u32)> = None;
        for segment in self.segments.iter() {
            let lower = match start {
                None => true,
                Some((offset, _)) => segment.offset < offset,
            };
            if lower && segment.flies_under(file, xid) {
                start = Some((segment.offset, segment.sent_as()));
            }
        }
        start
    }

    /// The byte in flight under an xid at a place.
    fn flying_byte(&self, file: &Handle, xid: u32, place: u64) -> Option<u8> {
        let mut found = None;
        for segment in self.segments.iter() {
            if segment.flies_under(file, xid) {
                found = found.or(segment.byte(place));
            }
        }
        found
    }

    /// The server has the first bytes of a piece; the others are as before they were sent.
    pub fn acked(
        &mut self,
        file: &Handle,
        xid: u32,
        count: u32,
        committed: u32,
        verf: Verf,
    ) -> Result<(), AllocError> {
        let fate = if committed > 0 {
            None
        } else {
            Some(Fate::Acked(verf))
        };
        match self.start_of(file, xid) {
            None => Ok(()),
            Some((start, _)) => {
                let end = start.saturating_add(u64::from(count));
                self.land(file, xid, end, fate)
            }
        }
    }

    /// The server has refused a piece.
    pub fn refused(&mut self, file: &Handle, xid: u32, status: u32) -> Result<(), AllocError> {
        let fate = Fate::Waits(Due::Refused(status));
        self.land(file, xid, u64::MAX, Some(fate))
    }

    /// A piece is as before it was sent.
    pub fn returned(&mut self, file: &Handle, xid: u32) -> Result<(), AllocError> {
        self.land(file, xid, 0, None)
    }

    /// A piece is in flight no more: what lies before a place gets a fate or goes, and the rest is as before it was sent.
    fn land(
        &mut self,
        file: &Handle,
        xid: u32,
        place: u64,
        fate: Option<Fate>,
    ) -> Result<(), AllocError> {
        let mut list = Vec::new(self.alloc);
        for old in self.segments.iter() {
            if old.flies_under(file, xid) {
                if let Some(fate) = fate {
                    self.push_uncovered(&mut list, old, old.offset, place, fate)?;
                }
                self.push_uncovered(&mut list, old, place, u64::MAX, old.before())?;
            } else {
                push_part(self.alloc, &mut list, old, 0, u64::MAX, old.fate)?;
            }
        }
        self.segments = list;
        Ok(())
    }

    /// What a segment has between two places, without the bytes that newer ones cover.
    fn push_uncovered(
        &self,
        list: &mut Vec<Segment>,
        of: &Segment,
        from: u64,
        to: u64,
        fate: Fate,
    ) -> Result<(), AllocError> {
        let mut start = from.max(of.offset);
        let end = to.min(of.end());
        for place in start..end {
            if self.is_covered(of, place) {
                push_part(self.alloc, list, of, start, place, fate)?;
                start = place.saturating_add(1);
            }
        }
        push_part(self.alloc, list, of, start, end, fate)
    }

    /// Whether a newer segment has a byte at a place.
    fn is_covered(&self, of: &Segment, place: u64) -> bool {
        self.segments.iter().any(|other| {
            other.number > of.number && other.byte(place).is_some() && other.file == of.file
        })
    }

    /// A piece is in flight under another xid.
    pub fn renumber(&mut self, file: &Handle, xid: u32, to: u32) {
        for segment in self.segments.iter_mut() {
            if segment.file == *file {
                segment.fate = match segment.fate {
                    Fate::Flies(own, due) => Fate::Flies(if own == xid { to } else { own }, due),
                    other => other,
                };
            }
        }
    }

    /// What the server has under a verifier, up to a number, is stable.
    pub fn settle(&mut self, file: &Handle, verf: Verf, upto: u64) {
        self.segments.retain(|segment| {
            segment.file != *file || segment.number > upto || segment.fate != Fate::Acked(verf)
        });
    }

    /// What the server has, up to a number, is to be sent again. How many segments that is.
    pub fn mark_again(&mut self, file: &Handle, upto: u64) -> u64 {
        let mut count: u64 = 0;
        for segment in self.segments.iter_mut() {
            let held = matches!(segment.fate, Fate::Acked(_));
            if held && segment.number <= upto && segment.file == *file {
                segment.fate = Fate::Waits(Due::Again);
                count = count.saturating_add(1);
            }
        }
        count
    }

    /// What the verifier of a COMMIT tells: what the server has under it is stable, all else that it has is to be sent
    /// again.
    pub fn decide(&mut self, file: &Handle, upto: u64, verf: Verf) -> Verdict {
        let mut lost: u64 = 0;
        for segment in self.segments.iter_mut() {
            let old = segment.file == *file && segment.number <= upto;
            let held = matches!(segment.fate, Fate::Acked(_));
            if old && held && segment.fate != Fate::Acked(verf) {
                segment.fate = Fate::Waits(Due::Again);
                lost = lost.saturating_add(1);
            }
        }
        self.settle(file, verf, upto);
        if lost == 0 {
            Verdict::AllStable
        } else {
            Verdict::SendAgain(lost)
        }
    }

    /// Writes the newest pending byte over each place that has one.
    pub fn overlay(&self, file: &Handle, offset: u64, buf: &mut [u8]) {
        let mut place = offset;
        for byte in buf.iter_mut() {
            *byte = self.newest(file, place).unwrap_or(*byte);
            place = place.saturating_add(1);
        }
    }

    /// The newest pending byte at a place.
    fn newest(&self, file: &Handle, place: u64) -> Option<u8> {
        let mut number = 0;
        let mut newest = None;
        for segment in self.segments.iter() {
            let byte = segment.byte(place);
            if byte.is_some() && segment.number >= number && segment.file == *file {
                number = segment.number;
                newest = byte;
            }
        }
        newest
    }

    /// Where the last pending byte of a file ends.
    pub fn end(&self, file: &Handle) -> Option<u64> {
        let mut end = None;
        for segment in self.segments.iter() {
            if segment.file == *file {
                end = end.max(Some(segment.end()));
            }
        }
        end
    }

    /// The pending bytes of a file at `size` and after it go, up to a number.
    pub fn cut(&mut self, file: &Handle, size: u64, upto: u64) -> Result<(), AllocError> {
        let mut list = Vec::new(self.alloc);
        for old in self.segments.iter() {
            let goes = old.file == *file && old.number <= upto;
            let to = if goes { size } else { u64::MAX };
            push_part(self.alloc, &mut list, old, 0, to, old.fate)?;
        }
        self.segments = list;
        Ok(())
    }

    /// No byte of a file is pending any more.
    pub fn give_up(&mut self, file: &Handle) {
        self.segments.retain(|segment| segment.file != *file);
    }

    /// How many bytes are pending in all.
    pub fn pending(&self) -> u64 {
        let mut sum: u64 = 0;
        for segment in self.segments.iter() {
            sum = sum.saturating_add(segment.bytes.len() as u64);
        }
        sum
    }

    /// The file of the least number.
    pub fn oldest(&self) -> Option<Handle> {
        let mut least = u64::MAX;
        let mut oldest = None;
        for segment in self.segments.iter() {
            if segment.number < least {
                least = segment.number;
                oldest = Some(segment.file);
            }
        }
        oldest
    }
}
