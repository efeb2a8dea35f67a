// Document 02's D, summed place by place.
ghost use Rattle.std.specs.Prelude.{◌≡◌, ◌<◌, length};
ghost use Rattle.lists.specs.Caps.{capped};
ghost use Rattle.demands.specs.Demand.{damage_at, damage_in};

use super::counts;
use block_decoder::GREATEST_WEIGHT;
use chain::MISSING;

// D, as far as 32 bits hold it.
#[tactic(auto, unfolding(lists::specs::Caps::capped, lists::specs::Sums::total, demands::specs::Demand::damage_in))]
pub fn damage_in(sent: &[u16], heard: &[u16], weights: &[u8]) -> u32
    ensures { result ≡ capped (damage_in 15 sent.now heard.now weights.now) }
{
    let mut damage = 0u32;
    for t in 0..heard.len() {
        damage = damage.saturating_add(damage_at(sent, heard, weights, t));
    }
    damage
}

// What the tone heard at t adds. Past the end of the weights, weight 0 stands.
#[tactic(auto, unfolding(demands::specs::Demand::damage_at))]
fn damage_at(sent: &[u16], heard: &[u16], weights: &[u8], t: usize) -> u32
    requires { t < length heard.now }
    ensures { result ≡ damage_at 15 sent.now heard.now weights.now t }
{
    let full = u32::from(GREATEST_WEIGHT);
    let weight = u32::from(weights.get(t).copied().unwrap_or(0));
    let tone = heard[t];
    if tone == MISSING {
        full
    } else if sent
        .get(t)
        .is_some_and(|&sent| counts::is_replaced(sent, tone))
    {
        full + weight
    } else {
        full.saturating_sub(weight)
    }
}
