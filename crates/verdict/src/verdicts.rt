// The verdict on a transfer, by its header and the settings.
ghost use Rattle.std.specs.Prelude.{◌≡◌};
ghost use Rattle.verdict.specs.Judge as judged;

use crate::Settings;
use crate::answers::Answer;
use header::Header;
use refusals::Refusal;

impl Settings {
    #[tactic(auto, using(laws::proofs::Tests::tests), unfolding(crate::specs::Judge::judge_header))]
    fn judge_header(self, h: Header) -> Result<Header, Refusal>
        ensures { result ≡ judged.judge_header self h }
    {
        if h.length == 32767 {
            return Err(Refusal::LengthOfOnes);
        }
        if h.length <= Header::SIZE {
            return Err(Refusal::HeaderAlone);
        }
        if self.limit < h.length {
            return Err(Refusal::LongTransfer);
        }
        if self.count <= h.channel {
            return Err(Refusal::NoSuchChannel);
        }
        Ok(h)
    }

    // Whether a cargo buffer of `room` bytes is too short.
    fn too_short(self, room: usize) -> bool
        ensures { result ≡ judged.too_short self room }
    {
        room < self.limit.saturating_sub(Header::SIZE)
    }
}

// The header of a transfer to go on with, or the answer to one that changes nothing, where `sound` says whether the
// receiver is sound, and the cargo buffer has `room` bytes.
#[tactic(auto, using(laws::proofs::Tests::tests), unfolding(crate::specs::Judge::judge, crate::specs::Judge::judge_reading))]
pub fn judge(
    sound: bool,
    settings: Settings,
    transfer: &[u8],
    room: usize,
) -> Result<Header, Answer>
    ensures { result ≡ judged.judge sound settings transfer.now room }
{
    if !sound {
        return Err(Refusal::Unsound.into());
    }
    if settings.too_short(room) {
        return Err(Refusal::ShortCargoBuffer.into());
    }
    let Some(h) = Header::read(transfer)? else {
        return Err(Answer::NULL);
    };
    Ok(settings.judge_header(h)?)
}
