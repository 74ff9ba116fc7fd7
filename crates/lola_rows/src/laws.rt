//! Laws of what a reader gives.
ghost use Rattle.std.specs.Prelude.{ℕ, ◌<◌, ◌≤◌, ◌^◌};
ghost use Rattle.lola_model.specs.Trace.{IsTraceable};
ghost use Rattle.lola_model.specs.declared.journal.Mark.TheVariants as mark;
ghost use Rattle.lola_model.specs.declared.journal.Row.{Row};
ghost use Rattle.lola_model.specs.declared.plan.Plan.{Plan};
ghost use Rattle.lola_rows.specs.Reading.{IsRowOf, shape_of};

/// Each row that a reader gives for a plan is, marked as accepted, an entry that a line of the plan's trace can tell:
/// one field for each input, absent or of its kind, and numbers and times in their ranges.
pub fn rows_fit()
    ensures { (plan : Plan) (index most given : ℕ) (row : Row) → index < 2 ^ 32 → most < 2 ^ 64
        → IsRowOf (shape_of plan.spec.streams index most) given row
        → IsTraceable plan (record { row = row; mark = mark.Accepted }) }
{}
