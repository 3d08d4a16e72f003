//! The payloads of a script's objects.
ghost use Rattle.std.specs.Prelude.{◌≡◌, ◌≤◌, ◌^◌};
ghost use Rattle.script_desk.specs.Kinds.{script_payload, IsScriptPayload, script_weight, script_bounded};

use plain_settling::PayloadKind;

/// Objects whose payload is a number of at most 2^32, which is what they weigh, and fifteen words of 0.
#[derive(Clone, Copy, Debug, Drop)]
pub struct ScriptKind;

impl PayloadKind for ScriptKind {
    ghost fits = { IsScriptPayload };

    ghost weight = { script_weight };

    fn weigh(payload: &[u64; 16]) -> u64 {
        payload[0]
    }

    ghost bounded = { script_bounded };
}

/// The payload of an object of this weight.
pub fn payload_of(weight: u64) -> [u64; 16]
    ensures { result ≡ script_payload weight }
{
    let mut payload = [0; 16];
    payload[0] = weight;
    payload
}
