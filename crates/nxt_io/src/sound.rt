// Sound.

ghost use Rattle.std.specs.Prelude.{◌≡◌, ◌==◌, ◌+◌, if◌then◌else◌, Some, None};
ghost use Rattle.nxt_model.specs.Devices.{silence, is_over};

use std::marker::Model;

/// The state in which a tone plays (Executable File Specification, "NXTSoundSetState").
const TONE: u8 = 3;

/// The state that stops all sound.
pub(crate) const STOP: u8 = 4;

/// The flag by which a sound is asked for.
const UPDATE: u8 = 1;

/// A tone that ends: the moment of its start and its duration, in ms.
#[derive(Clone, Copy)]
pub(crate) struct Tone {
    start: u64,
    duration: u32,
}

/// The state and flags of sound, and the tone that ends it (Executable File Specification,
/// "NXTSoundGetState").
#[derive(Drop)]
pub(crate) struct Sound {
    state: u8,
    flags: u8,
    tone: Option<Tone>,
}

impl Model for Sound {
    ghost use Rattle.std.specs.Prelude.{◌+◌, option_map};
    ghost use Rattle.nxt_model.specs.Devices.{Sound as Sounds};
    ghost use Rattle.nxt_io.specs.declared.sound.Tone.{Tone as Ending};

    ghost Value = { Sounds };

    ghost view = { λ s. record { state = s.state; flags = s.flags; ends = option_map (λ (t : Ending). t.start + t.duration) s.tone } };
}

impl Sound {
    /// No sound.
    pub fn silence() -> Sound
        ensures { result ≡ silence }
    {
        Sound {
            state: 0,
            flags: 0,
            tone: None,
        }
    }

    /// The state and the flags are set, and there is no tone that ends.
    pub fn set(&mut self, state: u8, flags: u8)
        ensures { self.new ≡ record { state = state; flags = flags; ends = None } }
    {
        self.state = state;
        self.flags = flags;
        self.tone = None;
    }

    /// A tone begins at a moment, in ms. One that does not repeat ends by itself.
    pub fn begin(&mut self, ms: u32, repeat: u32, clock: u64)
        ensures { self.new ≡ record { state = 3; flags = 1; ends = if repeat == 0 then Some (clock + ms) else None } }
    {
        self.set(TONE, UPDATE);
        if repeat == 0 {
            self.tone = Some(Tone {
                start: clock,
                duration: ms,
            });
        }
    }

    pub fn state(&self) -> u8
        ensures { result ≡ self.now.state }
    {
        self.state
    }

    pub fn flags(&self) -> u8
        ensures { result ≡ self.now.flags }
    {
        self.flags
    }

    /// Whether its tone is over at this moment, in ms.
    pub fn is_over(&self, clock: u64) -> bool
        ensures { result ≡ is_over self.now.ends clock }
    {
        match self.tone {
            None => false,
            Some(tone) => tone.start <= clock && u64::from(tone.duration) <= clock - tone.start,
        }
    }
}
