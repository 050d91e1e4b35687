// What listings and scripts have to do with each other.
#![tactic(auto)]

ghost use Rattle.std.specs.Prelude.{ℤ};
ghost use Rattle.items.specs.declared.point.Point.{Point};
ghost use Rattle.std.specs.Fmt.{signed_decimal};
ghost use Rattle.listing.specs.Texts.{point_text};
ghost use Rattle.script.specs.Items.{number_item, point_item};
ghost use Rattle.script_laws.specs.Laws.{Number, AnyPoint, ReadsBack, ListingDetermines, RunsAreAnswered};
ghost use Rattle.script_laws.specs.Grammar.{WritesNumberItem, WritesPoint, ReadsJust};
ghost use Rattle.script_laws.specs.Decimals.{ShortestDecimals};
ghost use Rattle.script_laws.specs.Worked.{WorkedExample};

// A line is read as a command just where it writes that command.
pub fn lines_are_read_by_their_forms()
    ensures numbers { ReadsJust number_item WritesNumberItem }
    ensures points { ReadsJust point_item WritesPoint }
{}

// Numbers are listed in the shortest form that reads back as that number.
pub fn decimals_are_shortest()
    ensures { ShortestDecimals }
{}

// A begin line of a listing, from its thread on, is a line of a script that begins the same operation.
pub fn begin_lines_are_script_lines()
    ensures numbers { ReadsBack signed_decimal number_item Number }
    ensures points { ReadsBack point_text point_item AnyPoint }
{}

// Two logs with the same listing are the same, if each end answers an operation that its number begins.
pub fn listing_determines_the_log()
    ensures numbers { ListingDetermines signed_decimal Number }
    ensures points { ListingDetermines point_text AnyPoint }
{}

// So do the ends in every log of a run.
pub fn logs_of_runs_are_answered()
    ensures numbers { RunsAreAnswered ℤ }
    ensures points { RunsAreAnswered Point }
{}

// A script and the listing of a run of it, to the byte.
pub fn worked_example_stands()
    ensures { WorkedExample }
{}
