//! The lines of a transcript, one after another.

ghost use Rattle.std.specs.Prelude.{◌≡◌, ◌↔◌, ◌⊎◌, Err, IfOk, OnErr};
ghost use Rattle.lan_core.specs.declared.fact.Fact.{Fact};
ghost use Rattle.transcript.specs.declared.fault.FactError.TheVariants.{Unread, Memory};
ghost use Rattle.transcript.specs.Rendering.{IsOfFrame};
ghost use Rattle.transcript_reader.specs.Forms.{form_then};
ghost use Rattle.transcript_reader.specs.Facts.{IsLife, Known, Tells, nothing};

use crate::form::Form;
use crate::readers::Readers;
use lan_base::Name;
use lan_core::Fact;
use std::alloc::{AllocError, Global};
use std::marker::Model;
use transcript::FactError;

/// Reads the lines of a transcript. Contracts see what is known from the lines before.
#[derive(Drop)]
pub struct FactReader {
    form: Option<Form>,
    readers: Readers,
}

impl Model for FactReader {
    ghost use Rattle.std.specs.Prelude.{◌≡◌, None};
    ghost use Rattle.transcript_reader.specs.Facts.{Known, unnamed};

    ghost Value = { Known };

    ghost view = { λ r. record { form = r.form; names = r.readers } };

    ghost invariant = { λ r. r.form ≡ None → r.readers ≡ unnamed };
}

impl FactReader {
    /// No line was read. Takes the memory for all names that can come.
    pub fn new(alloc: Global) -> Result<FactReader, AllocError>
        ensures { IfOk result (λ reader. reader ≡ nothing) }
    {
        Ok(FactReader {
            form: None,
            readers: Readers::new(alloc)?,
        })
    }

    /// The form of the lines, where one was read.
    pub fn form(&self) -> Option<Form>
        ensures { result ≡ self.now.form }
    {
        self.form
    }

    /// The names of the stations, by place.
    pub fn names(&self) -> &[Name]
        ensures { result.now ≡ self.now.names.first }
    {
        self.readers.names()
    }

    /// The fact of the next line, without its line feed. An error leaves the value as it was, and so
    /// does a line that begins no life.
    pub fn line(&mut self, alloc: Global, line: &[u8]) -> Result<Fact, FactError>
        ensures read { IfOk result (λ fact. Tells self.old line.now self.new fact) }
        ensures found { (then : Known) (fact : Fact) → Tells self.old line.now then fact
            → IfOk result (λ answer. (answer ≡ fact) × (self.new ≡ then)) }

        // Memory is never wanting in place of `Unread`, and only for the line of a frame.
        ensures unread { (result ≡ Err Unread) ↔ ((then : Known) (fact : Fact)
            → Tells self.old line.now then fact → ⊥) }
        ensures memory { result ≡ Err Memory → (then : Known) × (fact : Fact)
            × Tells self.old line.now then fact }
        ensures frames { result ≡ Err Memory → (then : Known) (fact : Fact)
            → Tells self.old line.now then fact → IsOfFrame fact }
        ensures kept { OnErr result (self.new ≡ self.old) }
        ensures still { IfOk result (λ fact. (self.new ≡ self.old) ⊎ IsLife fact) }
    {
        let form = self.form_of(line);
        let Some((group, text)) = form.part(line) else {
            return Err(FactError::Unread);
        };
        let fact = self.readers.read(alloc, group, text)?;
        self.form = Some(form);
        Ok(group.place(fact))
    }

    /// The form of a line: that of the lines before, or its own.
    fn form_of(&self, line: &[u8]) -> Form
        ensures { result ≡ form_then self.now.form line.now }
    {
        match self.form {
            Some(form) => form,
            None => Form::of(line),
        }
    }
}
