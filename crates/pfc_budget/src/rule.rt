// The rule over the word and the views of all seats, and what each kind of step tells the seat that makes it.
ghost use Rattle.std.specs.Prelude.{◌≡◌, ℕ, ◌+◌, ◌-◌, ◌^◌, ◌<◌, ◌≤◌, slice_index};
ghost use Rattle.atomic_table.specs.Table.{State};
ghost use Rattle.pfc_budget.specs.declared.rule.View.{View};
ghost use Rattle.pfc_budget.specs.Rule.{IsBudget, total, held_of, pending_of};

use atomic_table::{Join, Play, Split, TableRule};

/// What one seat knows of the budget. `pending` is a refused claim that isn't withdrawn yet, and `places` counts
/// the seat itself and the seats that may still be split from it: 0 once it was joined to another.
/// No value of this type is ever made.
pub struct View {
    pub limit: u64,
    pub held: u64,
    pub pending: u64,
    pub places: u64,
}

pub struct Limited;

impl TableRule<(), View, u64> for Limited {
    ghost use Rattle.pfc_budget.specs.Rule.{IsBudget, view};

    ghost holds = { IsBudget };

    ghost first = { λ limit. view limit 0 0 65537 };
}

pub struct Claims;

impl Play<(), View> for Claims {
    ghost use Rattle.pfc_budget.specs.Rule.{Claimed};

    ghost then = { Claimed };
}

pub struct Withdraws;

impl Play<(), View> for Withdraws {
    ghost use Rattle.pfc_budget.specs.Rule.{Withdrawn};

    ghost then = { Withdrawn };
}

pub struct Gives;

impl Play<(), View> for Gives {
    ghost use Rattle.pfc_budget.specs.Rule.{Given};

    ghost then = { Given };
}

pub struct Loads;

impl Play<(), View> for Loads {
    ghost use Rattle.pfc_budget.specs.Rule.{Loaded};

    ghost then = { Loaded };
}

pub struct Seats;

impl Split<View> for Seats {
    ghost use Rattle.pfc_budget.specs.Rule.{keeper, newcomer};

    ghost left = { keeper };

    ghost right = { newcomer };
}

impl Join<View> for Seats {
    ghost use Rattle.pfc_budget.specs.Rule.{joined, view};

    ghost both = { joined };

    ghost spent = { view 0 0 0 0 };
}

/// The rule, which stands between any two steps of any threads, says that what all seats hold is within the limit,
/// and that the word, which counts the claims that are being withdrawn too, never passes its type's end.
pub fn within_limit()
    ensures held { (limit : ℕ) (s : State (Unit {0}) View) → IsBudget limit s → total held_of s.views ≤ limit }
    ensures word { (limit : ℕ) (s : State (Unit {0}) View) → IsBudget limit s → slice_index s.words 0 ≡ total held_of s.views + total pending_of s.views }
    ensures fits { (limit : ℕ) (s : State (Unit {0}) View) → IsBudget limit s → slice_index s.words 0 < 2 ^ 61 }
{}
