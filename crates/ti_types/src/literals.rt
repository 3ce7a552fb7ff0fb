// Typing of ranges as in a domain literal, without a node of their own (as in `new T [a:b]`).
ghost use Rattle.std.specs.Prelude.{◌≡◌, ◌++◌, map, flat_map};
ghost use Rattle.std.specs.Option.{option_map};
ghost use Rattle.ti_lang.specs.Program.Expressions.{numbered_ranges};
ghost use Rattle.ti_lang.specs.Program.Scope.{contents_of};
ghost use Rattle.ti_lang.specs.Program.Views.{program_of, bound_of};
ghost use Rattle.ti_lang.specs.Typing.Expressions.{bounds, range_count};
ghost use Rattle.ti_rules.specs.Mirrors.First.{earliest};
ghost use Rattle.ti_rules.specs.Parts.{parts_of_ranges};
ghost use Rattle.ti_rules.specs.Broken.Expressions.{refusals_at};
ghost use Rattle.ti_rules.specs.Broken.Misplaced.{bounds_misplaced};
ghost use Rattle.ti_types.specs.Results.{literal, literal_of};

use crate::exprs::TypeChecker;
use crate::rects::{Ranges, literal_types};
use ti_lang::program::{Range, Scope};
use ti_rules::earlier_of;

impl<'a> TypeChecker<'a> {
    /// The typing result of ranges as in a domain literal.
    pub fn literal(&self, scope: &'a Scope, ranges: &'a [Range]) -> Ranges<'a>
        ensures first { result.first ≡ earliest (flat_map (refusals_at (program_of self.now.program.now) (contents_of scope.now))
            (parts_of_ranges (numbered_ranges (map bound_of ranges.now)))
            ++ bounds_misplaced (program_of self.now.program.now) (contents_of scope.now) (numbered_ranges (map bound_of ranges.now))) }
        ensures types { option_map literal_of result.types ≡ option_map (literal (range_count (numbered_ranges (map bound_of ranges.now))))
            (bounds (program_of self.now.program.now) (contents_of scope.now) (numbered_ranges (map bound_of ranges.now))) }
    {
        let found = self.ranges(scope, ranges);
        Ranges {
            first: earlier_of(found.inner, found.misplaced),
            types: literal_types(ranges.len(), found.types),
        }
    }
}
