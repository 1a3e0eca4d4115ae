// All devices.

ghost use Rattle.std.specs.Prelude.{ℕ, ◌≡◌, length, ◌+◌, ◌<◌, ◌≤◌, ◌++◌, if◌then◌else◌, pos, drop, nat_lt, option_map, slice_get, slice_index_or, IfOk, IsOk, OnOk, OnErr};
ghost use Rattle.nxt_model.specs.Devices.{at_start, set_out, get_out, update_flags, motor_at, commit, set_in, get_in, with_property, reading, tacho, button, pass, tone, set_sound, put_message, without_oldest, mailbox as messages_of};
ghost use Rattle.nxt_io.specs.Taken.{taken, count_reset};

use crate::button::Button;
use crate::mailbox::{Mailbox, empty_mailboxes};
use crate::motor::Motor;
use crate::sensor::Sensor;
use crate::sound::{STOP, Sound};
use circular_buffer::HeapCircularBuffer;
use nxt_model::event::Event;
use nxt_model::line::{Line, Lines};
use nxt_model::message::Message;
use nxt_types::NoMemory;
use std::alloc::Global;
use std::marker::Model;

/// How many random words are kept.
const RANDOM_WORDS: usize = 16;

/// The battery's millivolts at the start.
const MILLIVOLTS: u16 = 8000;

/// The devices of the brick.
#[derive(Drop)]
pub struct Io {
    motors: [Motor; 3],
    sensors: [Sensor; 4],
    buttons: [Button; 4],
    battery: u16,
    sound: Sound,
    random: HeapCircularBuffer<i16>,
    mailboxes: Vec<Mailbox>,
}

impl Model for Io {
    ghost use Rattle.std.specs.Prelude.{◌≡◌, vec_len};
    ghost use Rattle.nxt_model.specs.Devices.{Devices};

    ghost Value = { Devices };

    ghost view = { λ io. record { motors = io.motors; sensors = io.sensors; buttons = io.buttons; battery = io.battery; sound = io.sound; random = io.random.items; mailboxes = io.mailboxes.items } };

    ghost invariant = { λ io. (io.random.capacity ≡ 16) × (vec_len io.mailboxes ≡ 20) };
}

impl Io {
    /// The devices at the start. All memory that later calls need is taken here.
    pub fn new(alloc: Global) -> Result<Io, NoMemory>
        ensures { IfOk result (λ io. io ≡ at_start) }
    {
        Ok(Io {
            motors: [Motor::new(), Motor::new(), Motor::new()],
            sensors: [Sensor::new(), Sensor::new(), Sensor::new(), Sensor::new()],
            buttons: [
                Button::new(0, 0),
                Button::new(0, 0),
                Button::new(0, 0),
                Button::new(0, 0),
            ],
            battery: MILLIVOLTS,
            sound: Sound::silence(),
            random: HeapCircularBuffer::with_capacity(alloc, RANDOM_WORDS)?,
            mailboxes: empty_mailboxes(alloc)?,
        })
    }

    /// There are three motors, each of fifteen properties, and four sensors. The call does nothing.
    pub fn recall_sound(&self)
        ensures motors { length self.now.motors ≡ 3 }
        ensures properties { (port : ℕ) → port < 3 → length (motor_at port self.now) ≡ 15 }
        ensures sensors { length self.now.sensors ≡ 4 }
    {
        let motors: &[Motor] = &self.motors;
        let sensors: &[Sensor] = &self.sensors;
        let _ports = (motors.len(), sensors.len());
        motors[0].is_whole();
        motors[1].is_whole();
        motors[2].is_whole();
    }

    /// Stores a number in a property of a port's motor, cut to the property's kind (Executable File Specification,
    /// "SETOUT"). Properties that no program may write stay as they are.
    pub fn set_out(&mut self, port: u8, prop: u8, x: i64)
        ensures { self.new ≡ set_out port prop x self.old }
    {
        let motors: &mut [Motor] = &mut self.motors;
        if usize::from(port) < motors.len() {
            motors[usize::from(port)].set_property(prop, x);
        }
    }

    /// A property of a port's motor, or 0 where there is no such port or property (Executable File Specification, "GETOUT").
    pub fn get_out(&self, port: u8, prop: u8) -> i64
        ensures { result ≡ get_out port prop self.now }
    {
        self.motors
            .get(usize::from(port))
            .map_or(0, |m| m.property(prop))
    }

    /// The update flags of a port's motor, or 0 where there is no such port.
    pub fn flags(&self, port: u8) -> u8
        ensures { result ≡ update_flags (motor_at port self.now) }
    {
        self.motors.get(usize::from(port)).map_or(0, |m| m.flags())
    }

    /// A port's motor takes its properties over, as its update flags say, which a line tells (Executable File
    /// Specification, "Output Port Configuration Properties"). An `Err` changes nothing.
    pub fn commit(&mut self, port: u8, out: &mut Lines) -> Result<(), NoMemory>
        ensures devices { OnOk result (self.new ≡ (commit port self.old).devices) }
        ensures lines { OnOk result (out.new.lines ≡ out.old.lines ++ (commit port self.old).lines) }
        ensures same { OnErr result (self.new ≡ self.old) }
        ensures told { OnErr result (out.new.lines ≡ out.old.lines) }
        ensures succeeds { 0 < out.old.room → IsOk result }
        ensures room { out.old.room ≤ out.new.room + 1 }
    {
        if usize::from(port) >= self.motors.len() {
            return Ok(());
        }
        out.push(self.motors[usize::from(port)].line(port))?;
        self.motors[usize::from(port)].commit();
        Ok(())
    }

    /// Stores a number in a property of a port's sensor, cut to the property's kind (Executable File Specification,
    /// "SETIN"). Properties that no program may write stay as they are.
    pub fn set_in(&mut self, port: u8, prop: u8, x: i64)
        ensures { self.new ≡ set_in port prop x self.old }
    {
        let sensors: &mut [Sensor] = &mut self.sensors;
        if usize::from(port) < sensors.len() {
            sensors[usize::from(port)].set_property(prop, x);
        }
    }

    /// A property of a port's sensor, or 0 where there is no such port or property (Executable File Specification, "GETIN").
    pub fn get_in(&self, port: u8, prop: u8) -> i64
        ensures { result ≡ get_in port prop self.now }
    {
        self.sensors
            .get(usize::from(port))
            .map_or(0, |s| s.property(prop))
    }

    /// Resets a motor's position: the block tacho count where it is relative, and else the rotation count (Bluetooth
    /// Developer Kit, "Direct Commands", RESETMOTORPOSITION).
    pub fn reset_count(&mut self, port: u8, relative: bool)
        ensures { self.new ≡ record self.old { motors = with_property self.old.motors port (if relative then 13 else 14) (pos 0) } }
    {
        let motors: &mut [Motor] = &mut self.motors;
        if usize::from(port) < motors.len() {
            motors[usize::from(port)].reset_count(relative);
        }
    }

    /// What comes from a device changes that one. Other events change nothing.
    pub fn take(&mut self, e: &Event)
        ensures { self.new ≡ taken e.now self.old }
    {
        match *e {
            Event::Reading(port, raw, normalized, scaled) => {
                self.read(port, raw, normalized, scaled);
            }
            Event::Tacho(port, speed, count, block, rotation) => {
                self.count(port, speed, count, block, rotation);
            }
            Event::Button(index, pressed, presses) => self.press(index, pressed, presses),
            Event::Battery(millivolts) => self.battery = millivolts,
            Event::Random(word) => {
                self.random.push_back(word);
            }
            _ => {}
        }
    }

    /// A sensor's reading, which is valid, if there is such a port.
    fn read(&mut self, port: u8, raw: u16, normalized: u16, scaled: i16)
        ensures { self.new ≡ reading port raw normalized scaled self.old }
    {
        let sensors: &mut [Sensor] = &mut self.sensors;
        if usize::from(port) < sensors.len() {
            sensors[usize::from(port)].read(raw, normalized, scaled);
        }
    }

    /// What a motor's tacho tells, if there is such a port: the speed in percent, and three counts in degrees.
    fn count(&mut self, port: u8, speed: i8, count: i32, block: i32, rotation: i32)
        ensures { self.new ≡ tacho port speed count block rotation self.old }
    {
        let motors: &mut [Motor] = &mut self.motors;
        if usize::from(port) < motors.len() {
            motors[usize::from(port)].count(speed, count, block, rotation);
        }
    }

    /// What a button does, if there is such a button.
    fn press(&mut self, index: u8, pressed: u8, presses: u8)
        ensures { self.new ≡ button index pressed presses self.old }
    {
        let buttons: &mut [Button] = &mut self.buttons;
        if usize::from(index) < buttons.len() {
            buttons[usize::from(index)] = Button::new(pressed, presses);
        }
    }

    /// A moment comes, in ms, at which a tone may be over.
    pub fn pass(&mut self, clock: u64)
        ensures { self.new ≡ pass clock self.old }
    {
        if self.sound.is_over(clock) {
            self.sound = Sound::silence();
        }
    }

    /// Whether a button is pressed and how often it was, if there is such a button (Executable File Specification,
    /// "NXTReadButton"). A reset makes the count 0 afterwards.
    pub fn button(&mut self, index: u32, reset: bool) -> Option<(u8, u8)>
        ensures value { result ≡ option_map (λ b. (b.pressed, b.presses)) (slice_get self.old.buttons index) }
        ensures devices { self.new ≡ (if reset then count_reset index self.old else self.old) }
    {
        let buttons: &mut [Button] = &mut self.buttons;
        if index as usize >= buttons.len() {
            return None;
        }
        let state = buttons[index as usize].state();
        if reset {
            buttons[index as usize].reset_count();
        }
        Some(state)
    }

    /// Takes the oldest random word, or 0 where there is none (Executable File Specification, "NXTRandomNumber").
    pub fn random(&mut self) -> i16
        ensures value { result ≡ slice_index_or self.old.random 0 (pos 0) }
        ensures devices { self.new ≡ record self.old { random = drop 1 self.old.random } }
    {
        self.random.pop_front().unwrap_or(0)
    }

    /// The battery's voltage, in mV (Bluetooth Developer Kit, "Direct Commands", GETBATTERYLEVEL).
    pub fn battery(&self) -> u16
        ensures { result ≡ self.now.battery }
    {
        self.battery
    }

    /// The state and the flags of sound (Executable File Specification, "NXTSoundGetState").
    pub fn sound(&self) -> (u8, u8)
        ensures { result ≡ (self.now.sound.state, self.now.sound.flags) }
    {
        (self.sound.state(), self.sound.flags())
    }

    /// Plays a tone of a frequency in Hz for some ms, from a moment in ms on (Executable File Specification,
    /// "NXTSoundPlayTone"). A tone that repeats has no end. An `Err` changes nothing.
    pub fn tone(
        &mut self,
        freq: u32,
        ms: u32,
        repeat: u32,
        level: u32,
        clock: u64,
        out: &mut Lines,
    ) -> Result<(), NoMemory>
        ensures devices { OnOk result (self.new ≡ (tone freq ms repeat level clock self.old).devices) }
        ensures lines { OnOk result (out.new.lines ≡ out.old.lines ++ (tone freq ms repeat level clock self.old).lines) }
        ensures same { OnErr result (self.new ≡ self.old) }
        ensures told { OnErr result (out.new.lines ≡ out.old.lines) }
        ensures succeeds { 0 < out.old.room → IsOk result }
        ensures room { out.old.room ≤ out.new.room + 1 }
    {
        out.push(Line::Tone(freq, ms, repeat, level))?;
        self.sound.begin(ms, repeat, clock);
        Ok(())
    }

    /// Sets the state and the flags of sound, where state 4 is silence (Executable File Specification, "NXTSoundSetState").
    /// An `Err` changes nothing.
    pub fn set_sound(&mut self, state: u8, flags: u8, out: &mut Lines) -> Result<(), NoMemory>
        ensures devices { OnOk result (self.new ≡ (set_sound state flags self.old).devices) }
        ensures lines { OnOk result (out.new.lines ≡ out.old.lines ++ (set_sound state flags self.old).lines) }
        ensures same { OnErr result (self.new ≡ self.old) }
        ensures told { OnErr result (out.new.lines ≡ out.old.lines) }
        ensures succeeds { 0 < out.old.room → IsOk result }
        ensures room { out.old.room ≤ out.new.room + 1 }
    {
        if state == STOP {
            out.push(Line::Quiet)?;
            self.sound = Sound::silence();
        } else {
            self.sound.set(state, flags);
        }
        Ok(())
    }

    /// Puts a message into a mailbox, if there is such a mailbox (Executable File Specification, "NXTMessageWrite"). A full
    /// one loses its oldest message.
    pub fn put_message(&mut self, mailbox: u8, m: &Message) -> bool
        ensures devices { self.new ≡ put_message mailbox m.now self.old }
        ensures there { result ≡ nat_lt mailbox 20 }
    {
        if usize::from(mailbox) < self.mailboxes.len() {
            self.mailboxes[usize::from(mailbox)].put(*m);
            true
        } else {
            false
        }
    }

    /// The oldest message of a mailbox, which may be taken out (Executable File Specification, "NXTMessageRead").
    pub fn get_message(&mut self, mailbox: u8, remove: bool) -> Option<Message>
        ensures message { result ≡ slice_get (messages_of mailbox self.old) 0 }
        ensures devices { self.new ≡ (if remove then without_oldest mailbox self.old else self.old) }
    {
        if usize::from(mailbox) >= self.mailboxes.len() {
            return None;
        }
        let message = self.mailboxes[usize::from(mailbox)].oldest();
        if remove {
            self.mailboxes[usize::from(mailbox)].remove_oldest();
        }
        message
    }
}
