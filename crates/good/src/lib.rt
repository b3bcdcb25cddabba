// Whether a configuration and a state are good: sections 2 to 4, a function for each group of rules.
#![tactic(auto)]

ghost use Rattle.std.specs.Prelude.{◌≡◌, ◌&&◌, true, false, MatchResult};
ghost use Rattle.rules.specs.State.{multiples, bot_below_top, map_below_heap, heap_below_safe, safe_below_top, top_in_ram, good_config, domain_good, bound_good, safepointer_good, good_state};

pub mod bounds;
pub mod ranges;

use address::are_multiples;
use address::domains::is_domain;
use rules::{Config, Refusal, State};

// A configuration and a state that were found good: who is handed one need not ask again, and none is compared or printed.
#[derive(Clone, Copy)]
pub struct GoodConfig {
    pub config: Config,
    pub ghost good: { good_config config ≡ true },
}

#[derive(Clone, Copy)]
pub struct GoodState {
    pub state: State,
    pub ghost good: { good_state state ≡ true },
}

impl TryFrom<Config> for GoodConfig {
    type Error = Refusal;

    ghost use Rattle.rules.specs.declared.Refusal.TheVariants.{BrokenRule};

    ghost try_from_gives = { λ c r. MatchResult r (λ good. good.config ≡ c) (λ e. (e ≡ BrokenRule) × (good_config c ≡ false)) };

    fn try_from(config: Config) -> Result<GoodConfig, Refusal> {
        if !good_config(config) {
            return Err(Refusal::BrokenRule);
        }
        Ok(GoodConfig { config })
    }
}

impl TryFrom<State> for GoodState {
    type Error = Refusal;

    ghost use Rattle.rules.specs.declared.Refusal.TheVariants.{BadState};

    ghost try_from_gives = { λ s r. MatchResult r (λ good. good.state ≡ s) (λ e. (e ≡ BadState) × (good_state s ≡ false)) };

    fn try_from(state: State) -> Result<GoodState, Refusal> {
        if !good_state(state) {
            return Err(Refusal::BadState);
        }
        Ok(GoodState { state })
    }
}

impl GoodState {
    // Its configuration, which is good, too.
    pub fn config(self) -> GoodConfig
        ensures { result.config ≡ self.state.config }
    {
        GoodConfig {
            config: self.state.config,
        }
    }
}

// Section 2's rules. The multiples stand here once more: made a part of this, bounds::multiples loads all four addresses before the first test.
pub fn good_bounds(config: Config) -> bool
    ensures { result ≡ (multiples config && bot_below_top config && map_below_heap config && heap_below_safe config && safe_below_top config && top_in_ram config) }
{
    are_multiples(config, config.bot, config.heap)
        && are_multiples(config, config.safe, config.top)
        && bounds::in_order(config)
}

#[tactic(auto, unfolding(rules::specs::State::good_config))]
pub fn good_config(config: Config) -> bool
    ensures { result ≡ good_config config }
{
    good_bounds(config) && ranges::jt_in_flash(config) && ranges::in_any_order(config)
}

// Section 4: domain, bound and safe pointer; the bound is below RAM's end when one is added to it. As one chain of five, the first two tests, too, every
// operation takes three to five instructions more, and a call then more than the C.
pub fn good_run(state: State) -> bool
    ensures { result ≡ (domain_good state && bound_good state && safepointer_good state) }
{
    if !is_domain(state.config, state.domain) || address::RAM_BYTES <= state.bound.0 {
        return false;
    }
    state.config.top.0 <= state.bound.0 + 1
        && state.config.safe <= state.safepointer
        && state.safepointer <= state.config.top
}

// The cheap tests stand first.
#[tactic(auto, unfolding(rules::specs::State::good_state))]
pub fn good_state(state: State) -> bool
    ensures { result ≡ good_state state }
{
    good_run(state) && good_config(state.config)
}
