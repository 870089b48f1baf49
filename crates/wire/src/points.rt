//! The points of an update, one by one, read from their part of the packet.
ghost use Rattle.std.specs.Prelude.{◌≡◌, ℕ, ◌+◌, ◌*◌, ◌/◌, ◌<◌, nat_lt, cond, List, length, drop, MatchOption, Some, None, slice_get};
ghost use Rattle.std.proofs.Common.{rules};
ghost use Rattle.std.specs.Iterator.{YieldsFirst, item_count};
ghost use Rattle.wire.specs.declared.point.PricePoint.{PricePoint};
ghost use Rattle.wire.specs.Points.{full_at, delta_at, points, point_in, Shifts};
ghost use Rattle.wire.specs.Shifted.{full_shifts, delta_shifts};

use crate::point::{DeltaPoint, PricePoint};
use std::marker::{Model, PhantomData};

/// A point of an update: how many bytes it takes, and what they say.
pub trait Point: Copy {
    /// The bytes of a point.
    const BYTES: usize;

    ghost BYTES: { ℕ };

    /// The point that begins at an offset.
    ghost at: { List ℕ → ℕ → Self };

    /// The level that a point names.
    ghost named: { Self → PricePoint };

    /// The first point, and the bytes behind it; none where there are fewer bytes than a point has.
    // Kept in each impl: the length of an array is no associated constant.
    fn split_first(bytes: &[u8]) -> Option<(Self, &[u8])>
        ensures { MatchOption result (length bytes.now < BYTES) (λ p. (p.0 ≡ at bytes.now 0) × (p.1.now ≡ drop BYTES bytes.now) × (length p.1.now + BYTES ≡ length bytes.now)) };

    /// The level that the point names.
    fn level(&self) -> PricePoint
        ensures { result ≡ named self.now };

    ghost nonempty: { 0 < BYTES };

    ghost shifts: { Shifts at };
}

impl Point for PricePoint {
    const BYTES: usize = 12;

    ghost BYTES = { 12 };

    ghost at = { full_at };

    ghost named = { λ p. p };

    fn split_first(bytes: &[u8]) -> Option<(PricePoint, &[u8])> {
        let (first, rest) = bytes.split_first_chunk::<12>()?;
        Some((PricePoint::from(*first), rest))
    }

    fn level(&self) -> PricePoint {
        *self
    }

    ghost nonempty = { Prim.search rules };

    ghost shifts = { full_shifts };
}

impl Point for DeltaPoint {
    const BYTES: usize = 28;

    ghost BYTES = { 28 };

    ghost at = { delta_at };

    ghost named = { λ p. p.level };

    fn split_first(bytes: &[u8]) -> Option<(DeltaPoint, &[u8])> {
        let (first, rest) = bytes.split_first_chunk::<28>()?;
        Some((DeltaPoint::from(*first), rest))
    }

    fn level(&self) -> PricePoint {
        self.level
    }

    ghost nonempty = { Prim.search rules };

    ghost shifts = { delta_shifts };
}

/// The points that are left of an update, in their order.
#[derive(Drop)]
pub struct Points<'a, P: Point> {
    left: &'a [u8],
    of: PhantomData<P>,
}

impl<'a, P: Point> Model for Points<'a, P> {
    ghost Value = { List P };

    ghost view = { λ p. points P.BYTES P.at p.left.now };
}

impl<'a, P: Point> Points<'a, P> {
    /// The points of an update's part of a packet.
    #[tactic(auto, using(crate::proofs::Pointing::points_count, crate::proofs::Pointing::points_at))]
    pub fn new(bytes: &'a [u8]) -> Points<'a, P>
        ensures all { result ≡ points P.BYTES P.at bytes.now }
        ensures count { length result ≡ length bytes.now / P.BYTES }
        ensures each { (i : ℕ) → slice_get result i ≡ point_in P.BYTES P.at bytes.now i }
    {
        Points {
            left: bytes,
            of: PhantomData,
        }
    }
}

impl<'a, P: Point> Iterator for Points<'a, P> {
    type Item = P;

    ghost next_gives = { YieldsFirst (λ s. s) };

    ghost remaining = { item_count (λ s. s) };

    #[tactic(auto, using(crate::proofs::Pointing::points_none, crate::proofs::Pointing::points_more))]
    fn next(&mut self) -> Option<P> {
        let (first, rest) = P::split_first(self.left)?;
        self.left = rest;
        Some(first)
    }
}

impl<'a, P: Point> ExactSizeIterator for Points<'a, P> {
    #[tactic(auto, using(crate::proofs::Pointing::points_count))]
    fn len(&self) -> usize {
        self.left.len() / P::BYTES
    }
}
