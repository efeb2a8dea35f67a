// Document 01's u and r, counted.
ghost use Rattle.std.specs.Prelude.{◌≡◌, not, ◌&&◌, eqb};
ghost use Rattle.chain.specs.Chain.{missing_mark};
ghost use Rattle.demands.specs.Demand.{missing_in, replaced_in};

use chain::MISSING;

// The count of missing marks.
pub fn missing_in(heard: &[u16]) -> usize
    ensures { result ≡ missing_in heard.now }
{
    heard.iter().filter(|&&tone| tone == MISSING).count()
}

// The count of places where a tone is heard that is neither missing nor the one sent.
pub fn replaced_in(sent: &[u16], heard: &[u16]) -> usize
    ensures { result ≡ replaced_in sent.now heard.now }
{
    sent.iter()
        .zip(heard)
        .filter(|&(&sent, &tone)| is_replaced(sent, tone))
        .count()
}

// Whether a tone is heard that is neither missing nor the one sent.
pub fn is_replaced(sent: u16, tone: u16) -> bool
    ensures { result ≡ not (eqb tone missing_mark) && not (eqb tone sent) }
{
    tone != MISSING && tone != sent
}
