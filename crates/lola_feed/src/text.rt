//! The specification that the two sources are read by.

ghost use Rattle.std.specs.Prelude.{◌≡◌};
ghost use Rattle.lola_feed.specs.Drills.{drill_text};

/// Inputs of both sources, streams with a window, a hold and a parameter over them, and triggers.
pub fn specification() -> &'static str
    ensures { result.now ≡ drill_text }
{
    "input dev: String
input v: Int64
input w: Int64
output total: Int64 @v := total.last(or: 0) + v
output mean: Int64 @1Hz := v.aggregate(over: 10s, using: avg).defaults(to: 0)
output both: Int64 @(v || w) := v.hold(or: 0) + w.hold(or: 0)
output seen(d: String): Int64
  spawn with dev
  eval @dev when dev == d with seen(d).last(or: 0) + 1
  close when seen(d).hold(or: 0) >= 100
trigger v > 490 \"high\"
trigger mean > 20 \"mean\"
trigger both > 500 \"both\"
"
}
