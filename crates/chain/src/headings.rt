// What a chain says of itself before its stages.
ghost use Rattle.std.specs.Prelude.{◌≡◌, ◌≤◌, true};
ghost use Rattle.chain.specs.Limits.{times_kept};

// A chain's name, and its period and deadline in ticks. Their limits stand in the type.
#[derive(Clone, Copy, Debug, PartialEq, Eq)]
pub struct Heading {
    pub name: u16,
    pub period: u32,
    pub deadline: u32,
    ghost named: { 1 ≤ name },
    ghost times: { times_kept period deadline ≡ true },
}
