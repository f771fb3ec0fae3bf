// How a chain's work is spread over the time to its deadline.
ghost use Rattle.std.specs.Prelude.{◌≤◌};

// All of a chain's `work` is done at its `deadline`, both in ticks; there is some, and it fits.
#[derive(Clone, Copy)]
pub(super) struct Pace {
    pub deadline: u32,
    pub work: u32,
    ghost some: { 1 ≤ work },
    ghost fits: { work ≤ deadline },
}
