// Demand 3 as one function, plain and with weights: a text is encoded, decoded, and decoded from what was heard of it.
#![tactic(auto)]

ghost use Rattle.std.specs.Prelude.{◌≡◌};
ghost use Rattle.trial.specs.Tried.{Tried};
ghost use Rattle.trial.specs.WeightedTried.{WeightedTried};

use block_decoder::GREATEST_WEIGHT;
use demands::Trial;
use weighted_demands::WeightedTrial;

mod counts;
mod weighing;

// The first receiver hears the tones that were written, the second what is handed in as heard.
pub fn run(
    mode: u32,
    least_lead: u32,
    text: &[u8],
    heard: &[u16],
    tones: &mut [u16],
    one: &mut [u8],
    two: &mut [u8],
) -> Trial
    ensures { Tried mode least_lead text.now heard.now result tones.old tones.new one.old one.new two.old two.new }
{
    let encoded = block_encoder::encode_block(mode, text, tones);
    let sent = &tones[..encoded.unwrap_or(0)];
    let replaced = counts::replaced_in(sent, heard);
    let missing = counts::missing_in(heard);
    let first = block_decoder::decode_block(mode, least_lead, sent, one);
    let second = block_decoder::decode_block(mode, least_lead, heard, two);
    Trial {
        encoded,
        first,
        second,
        replaced,
        missing,
    }
}

// The same with weights: the first receiver has weight 15 throughout, the second those handed in. One function for both would take what hears and
// what counts as closures, for eight lines, and would be no plainer.
pub fn run_weighted(
    mode: u32,
    least_lead: u32,
    text: &[u8],
    heard: &[u16],
    weights: &[u8],
    tones: &mut [u16],
    one: &mut [u8],
    two: &mut [u8],
) -> WeightedTrial
    ensures { WeightedTried mode least_lead text.now heard.now weights.now result tones.old tones.new one.old one.new two.old two.new }
{
    let encoded = block_encoder::encode_block(mode, text, tones);
    let sent = &tones[..encoded.unwrap_or(0)];
    let damage = weighing::damage_in(sent, heard, weights);
    let full = [GREATEST_WEIGHT; 64];
    let first = block_decoder::decode_weighted(mode, least_lead, sent, &full, one);
    let second = block_decoder::decode_weighted(mode, least_lead, heard, weights, two);
    WeightedTrial {
        encoded,
        first,
        second,
        damage,
    }
}
