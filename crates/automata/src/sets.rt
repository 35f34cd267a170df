ghost use Rattle.std.specs.Prelude.{◌^◌, ◌<◌};

pub mod members;

// A set of states, each a number below 32: bit p says whether p is a member.
#[derive(Clone, Copy, PartialEq, Eq, Debug)]
pub struct StateSet {
    bits: u32,
    ghost small: { bits < 2 ^ 32 },
}
