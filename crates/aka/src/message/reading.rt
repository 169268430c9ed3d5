ghost use Rattle.std.specs.Prelude.{◌≡◌, length};
ghost use Rattle.aka.specs.Tokens.{autn_size, auts_size};
ghost use Rattle.aka.specs.Messages.{AutnParts, AutsParts, Reads};

use super::{ChallengeToken, Message, ResyncToken};
use crate::sizes::Admitted;
use block::Refusal;

// Reads a token: its length under the size set tells which it is.
pub fn read_message<'a>(admitted: Admitted, bytes: &'a [u8]) -> Result<Message<'a>, Refusal>
    ensures { Reads admitted.sizes bytes.entry result }
{
    match bytes.len() {
        n if n == admitted.autn_size() => Ok(Message::Challenge(split_autn(admitted, bytes))),
        n if n == admitted.auts_size() => Ok(Message::Resync(split_auts(admitted, bytes))),
        _ => Err(Refusal::Message),
    }
}

// The parts of an AUTN: the masked number, the AMF and MAC-A.
pub(crate) fn split_autn<'a>(admitted: Admitted, bytes: &'a [u8]) -> ChallengeToken<'a>
    requires { length bytes.now ≡ autn_size admitted.sizes }
    ensures { AutnParts admitted.sizes bytes.entry result }
{
    let n = admitted.sizes.sqn;
    let masked = &bytes[..n];
    let amf = &bytes[n..n + 2];
    let mac = &bytes[n + 2..];
    ChallengeToken { masked, amf, mac }
}

// The parts of an AUTS: the masked number and MAC-S.
// The function of an AUTN, `split_autn`, is not shared, since an AUTS has no AMF: one function with a part that may be absent would be no plainer.
pub(crate) fn split_auts<'a>(admitted: Admitted, bytes: &'a [u8]) -> ResyncToken<'a>
    requires { length bytes.now ≡ auts_size admitted.sizes }
    ensures { AutsParts admitted.sizes bytes.entry result }
{
    let n = admitted.sizes.sqn;
    let masked = &bytes[..n];
    let mac = &bytes[n..];
    ResyncToken { masked, mac }
}
