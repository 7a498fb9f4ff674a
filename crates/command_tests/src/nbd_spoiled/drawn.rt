// What a client says in a session: drawn as the protocol has it, and then spoiled.
use crate::dice::Dice;
use std::alloc::{AllocError, Global};
use std::mem::swap;

// What GO and INFO ask for: the empty name and no kinds of information, or one; or another name.
const NAMES: [&[u8]; 4] = [
    &[0, 0, 0, 0, 0, 0],
    &[0, 0, 0, 0, 0, 1, 0, 3],
    &[0, 0, 0, 0, 0, 1, 0, 3],
    &[0, 0, 0, 1, b'x', 0, 0],
];

// READ, WRITE, FLUSH, TRIM, and a command that nobody knows.
const COMMANDS: [u16; 8] = [0, 0, 1, 1, 1, 3, 4, 9];

// Lengths about those that the server looks for, and others that no message has.
const WILD: [u32; 16] = [
    0,
    1,
    0xff,
    0x1ff,
    0x200,
    0x201,
    0x400,
    0xe00,
    0x1_0000,
    0x1_0001,
    0x200_0000,
    0x200_0001,
    0x7fff_ffff,
    0x8000_0000,
    0xffff_fe00,
    0xffff_ffff,
];

/// What a client says.
#[derive(Drop)]
pub(crate) struct Said {
    pub(crate) bytes: Vec<u8>,
    // Where the fields of its messages began before they were spoiled.
    fields: Vec<usize>,
    spare: Vec<u8>,
}

impl Said {
    pub(crate) fn new(alloc: Global) -> Said {
        Said {
            bytes: Vec::new(alloc),
            fields: Vec::new(alloc),
            spare: Vec::new(alloc),
        }
    }

    fn put(&mut self, field: &[u8]) -> Result<(), AllocError> {
        self.fields.push(self.bytes.len())?;
        self.bytes.extend_from_slice(field)
    }

    fn put_option(&mut self, option: u32, body: &[u8]) -> Result<(), AllocError> {
        let length = u32::try_from(body.len()).unwrap_or(0);
        self.put(b"IHAVEOPT")?;
        self.put(&option.to_be_bytes())?;
        self.put(&length.to_be_bytes())?;
        self.put(body)
    }

    fn put_name_option(&mut self, dice: &mut Dice, option: u32) -> Result<(), AllocError> {
        let name = NAMES.get(dice.below(NAMES.len())).unwrap_or(&NAMES[0]);
        self.put_option(option, name)
    }

    fn put_head(&mut self, kind: u16, flags: u16, cookie: u64) -> Result<(), AllocError> {
        self.put(&0x25609513u32.to_be_bytes())?;
        self.put(&flags.to_be_bytes())?;
        self.put(&kind.to_be_bytes())?;
        self.put(&cookie.to_be_bytes())
    }

    // A request of some of the first twelve sectors, of which the export has the first eight.
    fn put_request(&mut self, dice: &mut Dice) -> Result<(), AllocError> {
        let kind = *COMMANDS.get(dice.below(COMMANDS.len())).unwrap_or(&0);
        let flags = if dice.one_in(4) { 1 } else { 0 };
        self.put_head(kind, flags, dice.roll())?;
        let sectors = dice.below(3) + 1;
        let offset = 512 * dice.below(10) as u64;
        let length = if kind == 3 { 0 } else { 512 * sectors as u32 };
        self.put(&offset.to_be_bytes())?;
        self.put(&length.to_be_bytes())?;
        if kind == 1 {
            self.put_payload(dice.byte(), sectors)?;
        }
        Ok(())
    }

    fn put_payload(&mut self, byte: u8, sectors: usize) -> Result<(), AllocError> {
        for _ in 0..sectors {
            self.put(&[byte; 512])?;
        }
        Ok(())
    }

    fn put_options(&mut self, dice: &mut Dice) -> Result<(), AllocError> {
        if dice.one_in(3) {
            self.put_option(3, &[])?;
        }
        if dice.one_in(3) {
            self.put_name_option(dice, 6)?;
        }
        if dice.one_in(8) {
            self.put_option(8, &[])?;
        }
        if dice.one_in(4) {
            return self.put_option(1, &[]);
        }
        self.put_name_option(dice, 7)
    }

    /// A session anew: flags, options, requests, and that the client goes.
    pub(crate) fn draw(&mut self, dice: &mut Dice) -> Result<(), AllocError> {
        self.bytes.clear();
        self.fields.clear();
        let flags = if dice.one_in(4) { 1u32 } else { 3 };
        self.put(&flags.to_be_bytes())?;
        self.put_options(dice)?;
        for _ in 0..dice.below(8) {
            self.put_request(dice)?;
        }
        if !dice.one_in(4) {
            self.put_head(2, 0, 0)?;
            self.put(&[0; 12])?;
        }
        Ok(())
    }

    // A place in it, mostly at a field or close behind.
    fn place(&self, dice: &mut Dice) -> usize {
        match self.fields.get(dice.below(self.fields.len())) {
            Some(field) if !dice.one_in(4) => field.saturating_add(dice.below(8).saturating_sub(4)),
            _ => dice.below(self.bytes.len()),
        }
    }

    // These bytes in the place of those from the one place up to the other.
    fn replace(&mut self, first: usize, with: &[u8], then: usize) -> Result<(), AllocError> {
        let (first, then) = (first.min(self.bytes.len()), then.min(self.bytes.len()));
        self.spare.clear();
        self.spare.extend_from_slice(&self.bytes[..first])?;
        self.spare.extend_from_slice(with)?;
        self.spare.extend_from_slice(&self.bytes[then..])?;
        swap(&mut self.bytes, &mut self.spare);
        Ok(())
    }

    /// Spoils it in one place: a byte is changed, the end is cut off, a span is said twice or left out, or a number is wild.
    pub(crate) fn spoil(&mut self, dice: &mut Dice) -> Result<(), AllocError> {
        let at = self.place(dice);
        let end = at.saturating_add(dice.below(64));
        match dice.below(8) {
            0 => self.replace(at, &[], usize::MAX),
            1 => self.replace(end, &[], at),
            2 => self.replace(at, &[], end),
            3 | 4 => {
                let wild = WILD.get(dice.below(WILD.len())).unwrap_or(&0);
                self.replace(at, &wild.to_be_bytes(), at.saturating_add(4))
            }
            _ => {
                let was = *self.bytes.get(at).unwrap_or(&0);
                let flipped = was ^ (0x80 >> (dice.byte() & 7));
                self.replace(at, &[flipped], at.saturating_add(1))
            }
        }
    }
}
