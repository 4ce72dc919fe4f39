// A stored block entered into the index.
#![tactic(auto)]

ghost use Rattle.std.specs.Prelude.{◌≡◌, length};
ghost use Rattle.indexed.specs.Indexed.{entered_by};

use refusal::Refusal;
use sector_log::Stored;

// Enters a block that was stored into the index; a duplicate and a refusal leave it.
pub fn enter_stored(index: &mut [u8], stored: Result<Stored, Refusal>, score: &[u8], kind: u8)
    requires { length score.now ≡ 20 }
    ensures { index.new ≡ entered_by stored score.now kind index.old }
{
    if let Ok(Stored::New(at)) = stored {
        index::enter(index, score, kind, at);
    }
}
