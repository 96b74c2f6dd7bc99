// The log.

use jiff::Timestamp;
use kl1_host_front::{Field, Number, put_line};
use std::alloc::{AllocError, Global};
use std::net::SocketAddr;
use std::time::Clock;

/// Tells lines to standard error, each with its time.
#[derive(Drop)]
pub struct Log<'a, R: Eprint + Clock> {
    pub rt: &'a R,
    pub alloc: Global,
}

/// Puts fields after those of a line.
fn add_fields(line: &mut Vec<u8>, fields: &[Field<'_>]) -> Result<(), AllocError> {
    if fields.is_empty() {
        return Ok(());
    }
    // The line goes on where its end was.
    if line.pop().is_some() {
        line.push(b' ')?;
    }
    put_line(line, fields)
}

impl<R: Eprint + Clock> Log<'_, R> {
    /// The line of an event, without more.
    fn line_of(&self, event: &[u8]) -> Result<Vec<u8>, AllocError> {
        let time = match Timestamp::now(self.rt) {
            Ok(now) => format!(in self.alloc; "{now:.3}")?,
            Err(_) => format!(in self.alloc; "-")?,
        };
        let time = Field {
            name: b"time",
            value: time.as_bytes(),
        };
        let event = Field {
            name: b"event",
            value: event,
        };
        let mut line = Vec::new(self.alloc);
        add_fields(&mut line, &[time])?;
        add_fields(&mut line, &[event])?;
        Ok(line)
    }

    /// The line of an event of who connects from this address.
    fn line_with(
        &self,
        event: &[u8],
        address: SocketAddr,
        fields: &[Field<'_>],
    ) -> Result<Vec<u8>, AllocError> {
        let peer = format!(in self.alloc; "{address}")?;
        let peer = Field {
            name: b"peer",
            value: peer.as_bytes(),
        };
        let mut line = self.line_of(event)?;
        add_fields(&mut line, &[peer])?;
        add_fields(&mut line, fields)?;
        Ok(line)
    }

    /// Writes a line. One that can't be written is passed over: the host serves all the same.
    fn write(&self, line: &[u8]) {
        if let Ok(text) = String::from_utf8_lossy(self.alloc, line) {
            let _ = eprint!(self.rt; "{text}");
        }
    }

    /// Tells an event of who connects from this address.
    pub fn tell_of(&self, event: &[u8], address: SocketAddr, fields: &[Field<'_>]) {
        if let Ok(line) = self.line_with(event, address, fields) {
            self.write(line.as_slice());
        }
    }

    /// Puts numbers after the fields of a line.
    fn add_numbers(
        &self,
        line: &mut Vec<u8>,
        numbers: &[Number<'static>],
    ) -> Result<(), AllocError> {
        for number in numbers {
            let text = format!(in self.alloc; "{}", number.number)?;
            let field = Field {
                name: number.name,
                value: text.as_bytes(),
            };
            add_fields(line, &[field])?;
        }
        Ok(())
    }

    /// The line of an event of the account of this name, with numbers.
    fn line_of_account(
        &self,
        event: &[u8],
        name: &[u8],
        numbers: &[Number<'static>],
    ) -> Result<Vec<u8>, AllocError> {
        let mut line = self.line_of(event)?;
        let account = Field {
            name: b"account",
            value: name,
        };
        add_fields(&mut line, &[account])?;
        self.add_numbers(&mut line, numbers)?;
        Ok(line)
    }

    /// Tells an event with numbers.
    pub fn tell_numbers(&self, event: &[u8], numbers: &[Number<'static>]) {
        if let Ok(mut line) = self.line_of(event)
            && self.add_numbers(&mut line, numbers).is_ok()
        {
            self.write(line.as_slice());
        }
    }

    /// Tells an event of the account of this name, with numbers.
    pub fn tell_account(&self, event: &[u8], name: &[u8], numbers: &[Number<'static>]) {
        if let Ok(line) = self.line_of_account(event, name, numbers) {
            self.write(line.as_slice());
        }
    }

    /// Tells that the journal of an account goes on from what is before this line.
    pub fn tell_repaired(&self, name: &[u8], line: u64) {
        let line = Number {
            name: b"line",
            number: line,
        };
        self.tell_account(b"repaired", name, &[line]);
    }

    /// Tells an event.
    pub fn tell(&self, event: &[u8], fields: &[Field<'_>]) {
        if let Ok(mut line) = self.line_of(event)
            && add_fields(&mut line, fields).is_ok()
        {
            self.write(line.as_slice());
        }
    }
}
