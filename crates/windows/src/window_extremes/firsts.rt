//! The first of the values in ranges.
ghost use Rattle.std.specs.Prelude.{◌≡◌, ◌≤◌, IfOk, Option, Some, length, map};
ghost use Rattle.values.specs.Datum.{Datum, datum_of};
ghost use Rattle.semantics.specs.Groups.{measure};
ghost use Rattle.windows.specs.first_values.Best.{IsBest};
ghost use Rattle.windows.specs.frames.Ranges.{AreInside};
ghost use Rattle.windows.specs.frames.Slices.{slices};
ghost use Rattle.windows.specs.window_totals.Totals.{kept};
ghost use Rattle.windows.specs.window_extremes.Stretches.{AreLevels, function_of, in_ranges, stretch};

use crate::first_values::{Side, better};
use crate::frames::Ranges;
use crate::window_extremes::levels::{doubled, single_places};
use std::alloc::{AllocError, Global};
use values::Value;

/// The values of an argument along a sequence, with the place of the first of them in each stretch whose width is a power of
/// two, for the least or the greatest of them.
#[derive(Drop)]
pub struct Firsts {
    pub side: Side,
    pub values: Vec<Value>,
    /// For each power of two the stretches from each place on.
    levels: Vec<Vec<Option<usize>>>,
    ghost levels_are: { AreLevels side (map datum_of values.items) (map (λ level. level.items) levels.items) },
}

impl Firsts {
    /// Compares as many values as there are, once for each power of two.
    pub fn new(alloc: Global, side: Side, values: Vec<Value>) -> Result<Firsts, AllocError>
        ensures side { IfOk result (λ firsts. firsts.side ≡ side) }
        ensures values { IfOk result (λ firsts. firsts.values ≡ values) }
    {
        let mut levels = Vec::new(alloc);
        levels.push(single_places(alloc, values.as_slice())?)?;
        let mut width = 1;
        while width <= values.len() / 2 {
            let last = levels[levels.len() - 1].as_slice();
            let level = doubled(alloc, side, values.as_slice(), last, width)?;
            levels.push(level)?;
            width *= 2;
        }
        Ok(Firsts {
            side,
            values,
            levels,
        })
    }

    /// The place of the first of the values from one place up to another, none where all are NULL.
    fn first_between(&self, from: usize, to: usize) -> Option<usize>
        requires ordered { from ≤ to }
        requires within { to ≤ length (map datum_of self.now.values.items) }
        ensures { IsBest self.now.side (map datum_of self.now.values.items) (stretch from to) result }
    {
        let width = to - from;
        if width == 0 {
            return None;
        }
        let power = width.ilog2();
        let level = self.levels[power as usize].as_slice();
        let last = to - 2usize.pow(power);
        better(self.side, self.values.as_slice(), level[from], level[last])
    }

    /// The place of the first of the values in three ranges, none where all are NULL.
    fn first_in(&self, ranges: &Ranges) -> Option<usize>
        requires { AreInside ranges.now (length (map datum_of self.now.values.items)) }
        ensures { IsBest self.now.side (map datum_of self.now.values.items) (in_ranges ranges.now) result }
    {
        let front = self.first_between(ranges.start, ranges.from);
        let middle = self.first_between(ranges.middle, ranges.after);
        let back = self.first_between(ranges.to, ranges.end);
        let values = self.values.as_slice();
        better(
            self.side,
            values,
            front,
            better(self.side, values, middle, back),
        )
    }

    /// `min` or `max` of the values in three ranges. (Built-in Aggregate Functions)
    pub fn first(&self, alloc: Global, ranges: &Ranges) -> Result<Value, AllocError>
        requires { AreInside ranges.now (length (map datum_of self.now.values.items)) }
        ensures { IfOk result (λ v. (o : Option Datum)
            → measure o (function_of self.now.side) (kept (slices ranges.now (map datum_of self.now.values.items))) ≡ Some (datum_of v)) }
    {
        match self.first_in(ranges) {
            Some(place) => self.values[place].as_ref().to_value(alloc),
            None => Ok(Value::Null),
        }
    }
}
