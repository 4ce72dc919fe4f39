// What is known, learned anew where it cannot belong.
#![tactic(auto)]

ghost use Rattle.std.specs.Prelude.{◌≡◌, true, length};
ghost use Rattle.known.specs.Known.{belongs};
ghost use Rattle.known_request.specs.Quick.{renewed};

use known::Known;

// What is known, or what is learned where that cannot belong to these lengths.
pub fn renew<'a>(known: Known, log: &'a [u8], waiting: &'a [u8], index: &[u8]) -> Known
    ensures fits { belongs result (length log.now) (length waiting.now) ≡ true }
    ensures anew { result ≡ renewed known log.now waiting.now index.now }
{
    if known_store::belongs(known, log.len(), waiting.len()) {
        return known;
    }
    learn::learn(log, waiting, index)
}
