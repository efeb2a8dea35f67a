// The C library: the entries of documents 01 and 02 for C and C++. include/olivia.h declares them.
#![tactic(auto)]

ghost use Rattle.std.specs.Prelude.{◌≡◌, length};
ghost use Rattle.block_encoder.specs.Encoding.{encode_block, encoded_into};
ghost use Rattle.block_decoder.specs.Decoding.{decode_block, decode_weighted, decoded_into, weighted_into};
ghost use Rattle.message_encoder.specs.Blocks.{longest};
ghost use Rattle.message_encoder.specs.Encoding.{encode_message, message_encoded_into};
ghost use Rattle.message_decoder.specs.Decoding.{decode_message, message_decoded_into};
ghost use Rattle.band.specs.Frequencies.{frequency_of};
ghost use Rattle.band.specs.Locating.{located_of};
ghost use Rattle.finder.specs.Finding.{find_block, found_into};
ghost use Rattle.energy.specs.Energies.{block_energies, weighted_energies};
ghost use Rattle.told.specs.Told.{counted_told, block_told, found_told, energies_told, located_told, read_told};
ghost use Rattle.told.specs.Capped.{refused_capped};
ghost use Rattle.sentence.specs.Reading.{read_sentence};
ghost use Rattle.sentence.specs.Writing.{write_sentence, sentence_into};
ghost use Rattle.sender.specs.Queues.{new};
ghost use Rattle.sender.specs.State.{Holds};
ghost use Rattle.olivia.specs.Sending.{HandedInForC, SentForC};
ghost use Rattle.olivia.specs.Told.{looked_answer, looked_told, hertz_told};
ghost use Rattle.olivia.specs.Tried.{TriedForC};
ghost use Rattle.olivia.specs.WeightedTried.{WeightedTriedForC};

use refusal::{Reason, Refusal, checks};
use sender::{SIZE, Sender, lent};
use told::{
    Answer, BlockAnswer, EnergiesAnswer, FoundAnswer, LocatedAnswer, ReadAnswer, SentAnswer,
};

// number 0: no tone is bad, and place is 0. Else the refusal. looked is how many tones were looked at.
#[repr(C)]
#[derive(Clone, Copy)]
pub struct LookedAnswer {
    pub number: u32,
    pub place: u64,
    pub looked: u64,
}

// number 0: the frequency. Else the refusal, and hertz is 0.
#[repr(C)]
#[derive(Clone, Copy)]
pub struct HertzAnswer {
    pub number: u32,
    pub place: u32,
    pub hertz: f64,
}

impl From<Result<f64, Refusal>> for HertzAnswer {
    ghost from_gives = { λ tuned told. told ≡ hertz_told (refused_capped tuned) };

    fn from(tuned: Result<f64, Refusal>) -> HertzAnswer {
        match tuned {
            Ok(hertz) => HertzAnswer {
                number: 0,
                place: 0,
                hertz,
            },
            Err(refusal) => {
                let told = Answer::from(refusal);
                HertzAnswer {
                    number: told.number,
                    place: told.place,
                    hertz: 0.0,
                }
            }
        }
    }
}

// The answers of the three calls, and document 01's r and u.
#[repr(C)]
#[derive(Clone, Copy)]
pub struct TrialAnswers {
    pub encoded: Answer,
    pub first: Answer,
    pub second: Answer,
    pub replaced: u32,
    pub missing: u32,
}

// The answers of the three calls with weights, and document 02's D.
#[repr(C)]
#[derive(Clone, Copy)]
pub struct WeightedTrialAnswers {
    pub encoded: Answer,
    pub first: Answer,
    pub second: Answer,
    pub damage: u32,
}

#[unsafe(no_mangle)]
pub extern "C" fn olivia_encode_block(mode: u32, codes: &[u8], tones: &mut [u16]) -> Answer
    ensures answer { result ≡ counted_told (encode_block mode codes.now (length tones.old)) }
    ensures output { tones.new ≡ encoded_into mode codes.now tones.old }
{
    Answer::from(block_encoder::encode_block(mode, codes, tones))
}

#[unsafe(no_mangle)]
pub extern "C" fn olivia_decode_block(
    mode: u32,
    least_lead: u32,
    tones: &[u16],
    codes: &mut [u8],
) -> BlockAnswer
    ensures answer { result ≡ block_told (decode_block mode least_lead tones.now (length codes.old)) }
    ensures output { codes.new ≡ decoded_into mode least_lead tones.now codes.old }
{
    BlockAnswer::from(block_decoder::decode_block(mode, least_lead, tones, codes))
}

#[unsafe(no_mangle)]
pub extern "C" fn olivia_decode_weighted(
    mode: u32,
    least_lead: u32,
    tones: &[u16],
    weights: &[u8],
    codes: &mut [u8],
) -> BlockAnswer
    ensures answer { result ≡ block_told (decode_weighted mode least_lead tones.now weights.now (length codes.old)) }
    ensures output { codes.new ≡ weighted_into mode least_lead tones.now weights.now codes.old }
{
    BlockAnswer::from(block_decoder::decode_weighted(mode, least_lead, tones, weights, codes))
}

#[unsafe(no_mangle)]
pub extern "C" fn olivia_find_block(
    mode: u32,
    least_lead: u32,
    run: &[u16],
    codes: &mut [u8],
) -> FoundAnswer
    ensures answer { result ≡ found_told mode (find_block mode least_lead run.now (length codes.old)) }
    ensures output { codes.new ≡ found_into mode least_lead run.now codes.old }
{
    FoundAnswer::new(mode, finder::find(mode, least_lead, run, codes))
}

#[unsafe(no_mangle)]
pub extern "C" fn olivia_energy(mode: u32, tones: &[u16]) -> EnergiesAnswer
    ensures { result ≡ energies_told (block_energies mode tones.now) }
{
    EnergiesAnswer::from(energy::of_block(mode, tones))
}

#[unsafe(no_mangle)]
pub extern "C" fn olivia_weighted_energy(mode: u32, tones: &[u16], weights: &[u8]) -> EnergiesAnswer
    ensures { result ≡ energies_told (weighted_energies mode tones.now weights.now) }
{
    EnergiesAnswer::from(energy::of_weighted(mode, tones, weights))
}

#[unsafe(no_mangle)]
pub extern "C" fn olivia_check_tones(mode: u32, tones: &[u16]) -> LookedAnswer
    ensures { result ≡ looked_told mode tones.now }
{
    if !checks::is_mode(mode) {
        return looked(Reason::Mode.number(), 0, 0);
    }
    let range = tone_range::check(checks::tone_count(mode), tones);
    match range.bad {
        Some(bad) => looked(Reason::Tone.number(), bad, range.looked),
        None => looked(0, 0, range.looked),
    }
}

#[unsafe(no_mangle)]
pub extern "C" fn olivia_encode_message(mode: u32, text: &[u8], tones: &mut [u16]) -> Answer
    ensures answer { result ≡ counted_told (encode_message longest mode text.now (length tones.old)) }
    ensures output { tones.new ≡ message_encoded_into longest mode text.now tones.old }
{
    Answer::from(message_encoder::encode_message(mode, text, tones))
}

#[unsafe(no_mangle)]
pub extern "C" fn olivia_decode_message(
    mode: u32,
    least_lead: u32,
    tones: &[u16],
    text: &mut [u8],
) -> Answer
    ensures answer { result ≡ counted_told (decode_message longest mode least_lead tones.now (length text.old)) }
    ensures output { text.new ≡ message_decoded_into longest mode least_lead tones.now text.old }
{
    Answer::from(message_decoder::decode_message(mode, least_lead, tones, text))
}

#[unsafe(no_mangle)]
pub extern "C" fn olivia_frequency(mode: u32, width: u32, centre: u32, tone: u16) -> HertzAnswer
    ensures { result ≡ hertz_told (frequency_of mode width centre tone) }
{
    HertzAnswer::from(band::frequency(mode, width, centre, tone))
}

#[unsafe(no_mangle)]
pub extern "C" fn olivia_locate(mode: u32, width: u32, centre: u32, hertz: f64) -> LocatedAnswer
    ensures { result ≡ located_told (located_of mode width centre hertz) }
{
    LocatedAnswer::from(band::locate(mode, width, centre, hertz))
}

#[unsafe(no_mangle)]
pub extern "C" fn olivia_sender_new() -> Sender
    ensures { Holds new result.bytes }
{
    Sender::new()
}

// The promise of sender::lent::hand_in, of the answer as C is told it.
#[unsafe(no_mangle)]
pub extern "C" fn olivia_hand_in(
    state: &mut [u8; SIZE],
    depot: u32,
    mode: u32,
    codes: &[u8],
) -> Answer
    ensures { HandedInForC state.old depot (record { mode = mode; codes = codes.now }) result state.new }
{
    Answer::from(lent::hand_in(state, depot, mode, codes))
}

// The promise of sender::lent::send, of the answer as C is told it.
#[unsafe(no_mangle)]
pub extern "C" fn olivia_send(state: &mut [u8; SIZE], tones: &mut [u16]) -> SentAnswer
    ensures { SentForC state.old tones.old result tones.new state.new }
{
    SentAnswer::from(lent::send(state, tones))
}

#[unsafe(no_mangle)]
pub extern "C" fn olivia_write_sentence(
    number: u32,
    place: u32,
    lead: u32,
    out: &mut [u8],
) -> Answer
    ensures answer { result ≡ counted_told (write_sentence number place lead (length out.old)) }
    ensures output { out.new ≡ sentence_into number place lead out.old }
{
    Answer::from(sentence::write_sentence(number, place as usize, lead, out))
}

#[unsafe(no_mangle)]
pub extern "C" fn olivia_read_sentence(bytes: &[u8]) -> ReadAnswer
    ensures { result ≡ read_told (read_sentence bytes.now) }
{
    ReadAnswer::from(sentence::read_sentence(bytes))
}

// The promise of trial::run, of the answers as C is told them.
#[unsafe(no_mangle)]
pub extern "C" fn olivia_trial_run(
    mode: u32,
    least_lead: u32,
    text: &[u8],
    heard: &[u16],
    tones: &mut [u16],
    one: &mut [u8],
    two: &mut [u8],
) -> TrialAnswers
    ensures { TriedForC mode least_lead text.now heard.now result tones.old tones.new one.old one.new two.old two.new }
{
    let trial = trial::run(mode, least_lead, text, heard, tones, one, two);
    TrialAnswers {
        encoded: Answer::from(trial.encoded),
        first: Answer::from(trial.first.answer),
        second: Answer::from(trial.second.answer),
        replaced: told::capped(trial.replaced),
        missing: told::capped(trial.missing),
    }
}

// The promise of trial::run_weighted, of the answers as C is told them.
#[unsafe(no_mangle)]
pub extern "C" fn olivia_weighted_trial_run(
    mode: u32,
    least_lead: u32,
    text: &[u8],
    heard: &[u16],
    weights: &[u8],
    tones: &mut [u16],
    first: &mut [u8],
    second: &mut [u8],
) -> WeightedTrialAnswers
    ensures { WeightedTriedForC mode least_lead text.now heard.now weights.now result tones.old tones.new first.old first.new second.old second.new }
{
    let weighed = trial::run_weighted(mode, least_lead, text, heard, weights, tones, first, second);
    WeightedTrialAnswers {
        encoded: Answer::from(weighed.encoded),
        first: Answer::from(weighed.first.answer),
        second: Answer::from(weighed.second.answer),
        damage: weighed.damage,
    }
}

fn looked(number: u8, place: usize, count: usize) -> LookedAnswer
    ensures { result ≡ looked_answer number place count }
{
    LookedAnswer {
        number: u32::from(number),
        place: place as u64,
        looked: count as u64,
    }
}
