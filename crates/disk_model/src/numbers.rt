ghost use Rattle.std.specs.Prelude.{◌≡◌};
ghost use Rattle.disk_model.specs.Numbers.{next_state, number_in};

/// The state behind a state of a row of numbers. Any number begins a row.
#[tactic(auto, unfolding(crate::specs::Numbers::next_state))]
pub fn next_state(state: u64) -> u64
    ensures { result ≡ next_state state }
{
    state
        .wrapping_mul(6_364_136_223_846_793_005)
        .wrapping_add(1_442_695_040_888_963_407)
}

/// The number that a state gives, below 2^31: its high bits.
#[tactic(auto, unfolding(crate::specs::Numbers::number_in))]
pub fn number_in(state: u64) -> u32
    ensures { result ≡ number_in state }
{
    (state >> 33) as u32
}
