// The lines of the output: what each call answers.
use refusal::Refusal;
use sender::{SIZE, Sender, Served};
use std::io;

pub fn end(rt: &impl Print) -> io::Result<()> {
    println!(rt; "")
}

pub fn depot(rt: &impl Print, depot: u32) -> io::Result<()> {
    print!(rt; "depot {depot}:")
}

fn refused(rt: &impl Print, refusal: Refusal) -> io::Result<()> {
    print!(rt; " refused {} at {}", refusal.reason.number(), refusal.place)
}

// A block whose first code is its number, and whose other codes are its depot's number. The modes go round with the depots.
pub fn hand_in(rt: &impl Print, sender: Sender, depot: u32, number: u32) -> io::Result<Sender> {
    let mut codes = [(depot % 128) as u8; 8];
    codes[0] = (number % 128) as u8;
    let count = (depot % 8) as usize + 1;
    let after = sender.hand_in(depot, depot % 8 + 1, &codes[..count]);
    match after.answer {
        Ok(()) => print!(rt; " taken")?,
        Err(refusal) => refused(rt, refusal)?,
    }
    Ok(after.sender)
}

// What is sent is decoded, so that the line tells the block.
pub fn send(rt: &impl Print, sender: Sender) -> io::Result<Sender> {
    let mut tones = [0u16; 64];
    let after = sender.send(&mut tones);
    print!(rt; "send:")?;
    match after.answer {
        Ok(Some(Served { depot, mode })) => {
            print!(rt; " depot {depot} mode {mode}")?;
            codes(rt, mode, &tones)?;
        }
        Ok(None) => print!(rt; " none waiting")?,
        Err(refusal) => refused(rt, refusal)?,
    }
    end(rt)?;
    Ok(after.sender)
}

fn codes(rt: &impl Print, mode: u32, tones: &[u16]) -> io::Result<()> {
    let mut codes = [255u8; 8];
    block_decoder::decode_block(mode, 64, tones, &mut codes);
    print!(rt; " codes")?;
    for code in codes {
        if code < 128 {
            print!(rt; " {code}")?;
        }
    }
    Ok(())
}

// An output one tone too short.
pub fn short_send(rt: &impl Print, sender: Sender) -> io::Result<Sender> {
    let mut tones = [0u16; 63];
    let after = sender.send(&mut tones);
    print!(rt; "send into 63 tones:")?;
    match after.answer {
        Ok(Some(_)) => print!(rt; " sent")?,
        Ok(None) => print!(rt; " none waiting")?,
        Err(refusal) => refused(rt, refusal)?,
    }
    end(rt)?;
    Ok(after.sender)
}

// How many blocks each depot has waiting, how many all together, and whose turn it is.
pub fn counts(rt: &impl Print, bytes: &[u8; SIZE]) -> io::Result<()> {
    print!(rt; "waiting:")?;
    for waiting in &bytes[1500..1530] {
        print!(rt; " {waiting}")?;
    }
    println!(rt; ", in all {}, turn {}", bytes[1530], bytes[1531])
}
