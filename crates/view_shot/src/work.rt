//! The work of a job in flight, and what its pieces give.
ghost use Rattle.std.specs.Prelude.{◌≡◌, ◌<◌, ◌↔◌, IfOk, IfSome, IsSome};
ghost use Rattle.view_shot.specs.Flights.{HasPairs, GivesShot, IsTile, NamesShot, pieces_of, tile_of};
ghost use Rattle.view_shot.specs.declared.work.Shot.TheVariants.{Pairs as PairsShot, Tile as IsTileShot};

use crate::job::{CheckJob, TileJob};
use crate::kept::SharedTile;
use crate::named::SharedPairs;
use memory_core::Memory;
use std::alloc::Global;
use tile_workers::Job;

/// What a piece of a job in flight gives: a tile, or the pairs of one.
#[derive(Drop)]
pub enum Shot {
    Tile(SharedTile),
    Pairs(SharedPairs),
}

/// What a job in flight shoots.
#[derive(Drop)]
pub(crate) enum Work {
    Picture(TileJob),
    Check(CheckJob),
}

impl Work {
    /// The number of pieces.
    pub(crate) fn count(&self) -> u32
        ensures { result ≡ pieces_of self.now }
    {
        match self {
            Work::Picture(job) => job.count(),
            Work::Check(job) => job.count(),
        }
    }

    /// The number of the tile that a piece is about.
    pub(crate) fn tile(&self, i: u32) -> u32
        requires { i < pieces_of self.now }
        ensures { result ≡ tile_of self.now i }
    {
        match self {
            Work::Picture(job) => job.tile(i),
            Work::Check(job) => job.tile(i),
        }
    }

    /// Shoots the tile of a piece.
    pub(crate) fn run(&self, alloc: Global, i: u32) -> Result<Shot, Memory>
        requires { i < pieces_of self.now }
        ensures gives { IfOk result (GivesShot self.now i) }
        ensures names { IfOk result (NamesShot self.now i) }
    {
        match self {
            Work::Picture(job) => Ok(Shot::Tile(job.run(alloc, i)?)),
            Work::Check(job) => Ok(Shot::Pairs(job.run(alloc, i)?)),
        }
    }

    /// What was shot once more, where it is named as that of a piece.
    pub(crate) fn again(&self, alloc: Global, i: u32, shot: &Shot) -> Result<Option<Shot>, Memory>
        requires { i < pieces_of self.now }
        ensures names { IfOk result (λ again. IsSome again ↔ NamesShot self.now i shot.now) }
        ensures gives { IfOk result (λ again. IfSome again (GivesShot self.now i)) }
    {
        match (self, shot) {
            (Work::Picture(job), Shot::Tile(tile)) => Ok(
                job.again(alloc, i, tile)?.map(Shot::Tile),
            ),
            (Work::Check(job), Shot::Pairs(pairs)) => {
                Ok(job.again(alloc, i, pairs)?.map(Shot::Pairs))
            }
            _ => Ok(None),
        }
    }
}

impl Shot {
    /// The tile that was shot.
    pub(crate) fn into_tile(self) -> SharedTile
        requires { IsTile self }
        ensures { self ≡ IsTileShot result }
    {
        match self {
            Shot::Tile(tile) => tile,
            Shot::Pairs(_) => unreachable!(),
        }
    }

    /// The pairs that were shot.
    pub(crate) fn into_pairs(self) -> SharedPairs
        requires { HasPairs self }
        ensures { self ≡ PairsShot result }
    {
        match self {
            Shot::Tile(_) => unreachable!(),
            Shot::Pairs(pairs) => pairs,
        }
    }
}
