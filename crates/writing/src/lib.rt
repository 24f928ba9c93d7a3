// Events as bytes. Kinds and tags are numbers, as in the reader's `match`.
#![tactic(auto)]

ghost use Rattle.std.specs.List.{flat_map};
ghost use Rattle.std.specs.Prelude.{◌≡◌, ◌++◌, is_ok, IfOk, if◌then◌else◌, OnOk};
ghost use Rattle.wire.specs.Format.{subject_bytes, statement_bytes, certificate_bytes, bytes_of_event};
ghost use Rattle.wire.specs.Numbers.{bytes};

use certificates::{Certificate, Statement, Subject};
use std::alloc::{AllocError, Global};
use wire::events::Event;
use wire::numbers::Number;

// Writes a number at the end of `out`.
fn push_number<N: Number<BYTES>, const BYTES: usize>(
    out: &mut Vec<u8>,
    number: N,
) -> Result<(), AllocError>
    ensures { out.new.items ≡ (if is_ok result then out.old.items ++ bytes BYTES (N.value number) else out.old.items) }
{
    out.extend_from_slice(&number.to_be_bytes())
}

// Writes names, two bytes each.
fn push_names(out: &mut Vec<u8>, names: &[u16]) -> Result<(), AllocError>
    ensures { OnOk result (out.new.items ≡ out.old.items ++ flat_map (bytes 2) names.now) }
{
    for name in names {
        push_number(out, *name)?;
    }
    Ok(())
}

// Writes a subject: its house, how many names it has, and these.
fn push_subject(out: &mut Vec<u8>, subject: &Subject) -> Result<(), AllocError>
    ensures { OnOk result (out.new.items ≡ out.old.items ++ subject_bytes subject.now) }
{
    push_number(out, subject.house)?;
    out.push(subject.count)?;
    push_names(out, subject.names())?;
    Ok(())
}

// Writes a statement: its tag, then a name or a set of rights.
fn push_statement(out: &mut Vec<u8>, statement: &Statement) -> Result<(), AllocError>
    ensures { OnOk result (out.new.items ≡ out.old.items ++ statement_bytes statement.now) }
{
    match statement {
        Statement::Name { name, .. } => {
            out.push(0)?;
            push_number(out, *name)?;
        }
        Statement::Rights {
            rights,
            delegable,
            ..
        } => {
            out.push(if *delegable { 2 } else { 1 })?;
            push_number(out, *rights)?;
        }
    }
    Ok(())
}

// Writes a certificate, without the kind of its event.
fn push_certificate(out: &mut Vec<u8>, certificate: &Certificate) -> Result<(), AllocError>
    ensures { OnOk result (out.new.items ≡ out.old.items ++ certificate_bytes certificate.now) }
{
    push_number(out, certificate.issuer)?;
    push_number(out, certificate.first)?;
    push_number(out, certificate.last)?;
    push_subject(out, certificate.statement.subject())?;
    push_statement(out, &certificate.statement)?;
    Ok(())
}

// The bytes of an event, as a new `Vec`; an error where there is no memory for it.
pub fn event_bytes(heap: Global, event: &Event) -> Result<Vec<u8>, AllocError>
    ensures { IfOk result (λ v. v.items ≡ bytes_of_event event.now) }
{
    let mut out = Vec::new(heap);
    match event {
        Event::Issued(certificate) => {
            out.push(1)?;
            push_certificate(&mut out, certificate)?;
        }
        Event::Revoked(number) => {
            out.push(2)?;
            push_number(&mut out, *number)?;
        }
        Event::DayPassed => out.push(3)?,
    }
    Ok(out)
}
