// The missing and repeat counts, copied to a lent row and cleared.
ghost use Rattle.std.specs.Prelude.{◌≡◌, map, ◌+◌, ◌≤◌, length};
ghost use Rattle.std.proofs.Math.Seq.{paste};
ghost use Rattle.receiver.specs.Counts as counts;

use crate::{Receiver, sound};
use joining::Channel;
use refusals::Refusal;

fn field_of(repeats: bool, channel: Channel) -> u32
    ensures { result ≡ counts.field_of repeats channel }
{
    if repeats {
        channel.repeats
    } else {
        channel.missing
    }
}

// The missing counts of the first `count` channels, or their repeats, go to `row` from `at`.
fn copy_field(repeats: bool, channels: &[Channel; 32], row: &mut [u32], at: usize, count: usize)
    requires { (count ≤ 32) × (at + count ≤ length row.old) }
    ensures row_after { row.new ≡ paste row.old at (map (counts.field_of repeats) channels.now) count }
    ensures channels_len { length channels.now ≡ 32 }
{
    // Kept: tried a mapped array, of all 32 whatever the count is: three times slower.
    for j in 0..count {
        row[at + j] = field_of(repeats, channels[j]);
    }
}

fn cleared(channel: Channel) -> Channel
    ensures { result ≡ counts.cleared_channel channel }
{
    Channel {
        missing: 0,
        repeats: 0,
        ..channel
    }
}

fn clear(mut channels: [Channel; 32]) -> [Channel; 32]
    ensures { result ≡ map counts.cleared_channel channels }
{
    // Kept: tried a mapped array: 1.6 times slower. Over `iter_mut()` the proof did not close.
    for j in 0..Receiver::MAX_CHANNELS {
        channels[j] = cleared(channels[j]);
    }
    channels
}

impl Receiver {
    // Copies every channel's missing count, then every channel's repeats, to the lent row.
    #[tactic(auto, unfolding(crate::specs::Counts::copying, crate::specs::Counts::row_after))]
    pub fn copy_counts(self, row: &mut [u32]) -> Result<(), Refusal>
        ensures value { result ≡ counts.copying self (length row.old) }
        ensures row_after { row.new ≡ counts.row_after self row.old }
    {
        let count = self.settings.count;
        if !sound::is_sound(self.settings, self.underway) {
            return Err(Refusal::Unsound);
        }
        if row.len() < 2 * count {
            return Err(Refusal::ShortOutput);
        }
        copy_field(false, &self.channels, row, 0, count);
        copy_field(true, &self.channels, row, count, count);
        Ok(())
    }

    // The receiver with both counts set to zero for all channels.
    #[tactic(auto, unfolding(crate::specs::Counts::cleared))]
    pub fn clear_counts(self) -> Result<Receiver, Refusal>
        ensures { result ≡ counts.cleared self }
    {
        if !sound::is_sound(self.settings, self.underway) {
            return Err(Refusal::Unsound);
        }
        Ok(Receiver {
            channels: clear(self.channels),
            ..self
        })
    }
}
