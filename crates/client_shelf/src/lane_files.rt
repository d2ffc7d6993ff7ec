//! Which file each lane is at.

ghost use Rattle.std.specs.Prelude.{◌≡◌, [], position, IfOk};
ghost use Rattle.std.specs.List.{list_any};
ghost use Rattle.client_shelf.specs.LaneFiles.{is_lane, is_file, is_other, added, left, place_of, first_of, leads, is_first};

use limits::LANE_COUNT;
use nfs_types::Handle;
use std::alloc::Global;
use std::marker::Model;
use xdr_codec::Memory;

/// A lane, and the file that it is at.
#[derive(Clone, Copy, Debug, PartialEq, Eq)]
pub struct LaneFile {
    /// The lane, 1 to 16.
    pub lane: u8,
    /// The file.
    pub file: Handle,
}

impl LaneFile {
    /// Whether the lane is at this file.
    fn is_at(&self, file: &Handle) -> bool
        ensures { result ≡ is_file file.now self.now }
    {
        self.file == *file
    }
}

/// Which file each lane is at, in the order in which the lanes came; a lane is at one file at most. The memory
/// of all places is taken at once.
#[derive(Drop)]
pub struct LaneFiles {
    places: Vec<LaneFile>,
}

impl Model for LaneFiles {
    ghost use Rattle.std.specs.Prelude.{List};
    ghost use Rattle.client_shelf.specs.declared.lane_files.LaneFile.{LaneFile};

    ghost Value = { List LaneFile };

    ghost view = { λ l. l.places.items };

    ghost use Rattle.std.specs.Prelude.{◌≤◌};
    ghost use Rattle.std.specs.Vec.{vec_capacity};

    ghost invariant = { λ l. 16 ≤ vec_capacity l.places };
}

impl LaneFiles {
    /// No lane is at a file.
    pub fn new(alloc: Global) -> Result<LaneFiles, Memory>
        ensures { IfOk result (λ l. l ≡ []) }
    {
        Ok(LaneFiles {
            places: Vec::with_capacity(alloc, LANE_COUNT)?,
        })
    }

    /// The lane comes to a file, as the last. It leaves the one that it was at. There are places for 16 lanes.
    pub fn join(&mut self, lane: u8, file: &Handle)
        ensures { self.new ≡ added (record { lane = lane; file = file.now }) (left lane self.old) }
    {
        self.leave(lane);
        self.add(LaneFile { lane, file: *file });
    }

    /// The last place.
    fn add(&mut self, place: LaneFile)
        ensures { self.new ≡ added place self.old }
    {
        if self.places.len() < LANE_COUNT {
            let Ok(()) = self.places.push(place) else {
                unreachable!();
            };
        }
    }

    /// The lane is at no file.
    pub fn leave(&mut self, lane: u8)
        ensures { self.new ≡ left lane self.old }
    {
        if let Some(at) = self.position(lane) {
            self.places.remove(at);
        }
    }

    /// Whether the lane is at a file, and came to it before all others that are.
    pub fn is_first(&self, lane: u8) -> bool
        ensures { result ≡ is_first lane self.now }
    {
        match self.place(lane) {
            Some(place) => self.leads(place),
            None => false,
        }
    }

    fn position(&self, lane: u8) -> Option<usize>
        ensures { result ≡ position (is_lane lane) self.now }
    {
        self.places
            .as_slice()
            .iter()
            .position(|place| place.lane == lane)
    }

    /// Where the lane is.
    fn place(&self, lane: u8) -> Option<LaneFile>
        ensures { result ≡ place_of lane self.now }
    {
        let at = self.position(lane)?;
        self.places.as_slice().get(at).copied()
    }

    /// Who came to the file first.
    fn first(&self, file: &Handle) -> Option<LaneFile>
        ensures { result ≡ first_of file.now self.now }
    {
        let at = self.first_at(file)?;
        self.places.as_slice().get(at).copied()
    }

    fn first_at(&self, file: &Handle) -> Option<usize>
        ensures { result ≡ position (is_file file.now) self.now }
    {
        self.places
            .as_slice()
            .iter()
            .position(|place| place.is_at(file))
    }

    /// Whether the place's lane came to its file first.
    fn leads(&self, place: LaneFile) -> bool
        ensures { result ≡ leads place self.now }
    {
        match self.first(&place.file) {
            Some(first) => first.lane == place.lane,
            None => false,
        }
    }

    /// Whether another lane than this one is at the file.
    pub fn has_other(&self, lane: u8, file: &Handle) -> bool
        ensures { result ≡ list_any (is_other lane file.now) self.now }
    {
        self.places
            .as_slice()
            .iter()
            .any(|place| place.lane != lane && place.is_at(file))
    }
}
