//! The worked examples that are proved.
ghost use Rattle.std.specs.Prelude.{◌≡◌, length};
ghost use Rattle.cases.specs.Cases.{AllHold};
ghost use Rattle.cases.specs.Table.{cases};

/// How many worked examples are proved: those of the table, and each holds.
pub fn proved_cases() -> usize
    ensures count { result ≡ length cases }
    ensures hold { AllHold cases }
{
    20
}
