//! How many link calls may move bytes.
ghost use Rattle.std.specs.Prelude.{◌≡◌, option_map};
ghost use Rattle.h1_transfer.specs.Budget.{allowance};

/// How many link calls of one call may move bytes, where no budget is set.
pub const CALL_BUDGET: u32 = 64;

/// How many link calls of this call may move bytes.
pub fn allowance_of(budget: Option<u32>) -> u32
    ensures { result ≡ allowance budget }
{
    match budget {
        Some(left) => left,
        None => CALL_BUDGET,
    }
}

/// The budget where so many calls are left of the allowance.
pub fn budget_left(budget: Option<u32>, left: u32) -> Option<u32>
    ensures { result ≡ option_map (λ _. left) budget }
{
    match budget {
        Some(_) => Some(left),
        None => None,
    }
}
