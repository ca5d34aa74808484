ghost use Rattle.std.specs.{Prelude.{◌≡◌, ◌++◌, IfNone, IfOk, IfSome, string_bytes, encode_utf8_all, OnOk, map}, Str.IsAscii, List.list_all};
ghost use Rattle.json.specs.{Print.quoted, Run.is_plain};
ghost use Rattle.office_replies.specs.Bodies.{answer_data, answer_text, waiting_data, waiting_text, clash_data, clash_text, refused_data, refused_text};
ghost use Rattle.office_replies.specs.{Members.text_member, Messages.{reply_text, report_content, reply_data}, Names.syntax_name, Sent.SendsFirst};
ghost use Rattle.office_replies.specs.Refusals.{refusal_text, named_refusal};
ghost use Rattle.serde_json.specs.{Data.{member, number, unsigned, Data}, Events.SendsValue, View.view, Written.compact_text};

use crate::deliver::Fault;
use crate::message_report::{MessageReport, send_messages};
use edi_syntax::SyntaxFault;
use itoa::Buffer;
use serde::{Described, Serialize, Serializer};
use serde_json::{Value, json, to_string};
use std::alloc::{AllocError, Global};

/// Bytes as text, each of them as the character of its number: ASCII stays as it is.
pub fn text_of(alloc: Global, bytes: &[u8]) -> Result<String, AllocError>
    ensures { IfOk result (λ text. string_bytes text ≡ encode_utf8_all bytes.now) }
{
    match as_ascii(bytes) {
        Some(text) => String::from_str(alloc, text),
        None => each_as_character(alloc, bytes),
    }
}

/// The bytes as a text, if each is of ASCII.
pub(crate) fn as_ascii(bytes: &[u8]) -> Option<&str>
    ensures text { IfSome result (λ text. text.now ≡ encode_utf8_all bytes.now) }
    ensures none { IfNone result (¬ IsAscii bytes.now) }
{
    if !bytes.is_ascii() {
        return None;
    }
    match str::from_utf8(bytes) {
        Ok(text) => Some(text),
        Err(_) => None,
    }
}

/// The character of each byte, one after the other.
fn each_as_character(alloc: Global, bytes: &[u8]) -> Result<String, AllocError>
    ensures { IfOk result (λ text. string_bytes text ≡ encode_utf8_all bytes.now) }
{
    let mut text = String::new(alloc);
    for byte in bytes {
        text.push(char::from(*byte))?;
    }
    Ok(text)
}

/// Sends a member whose value is a text.
pub(crate) fn send_text<S: Serializer>(key: &str, text: &str, out: &mut S) -> Result<(), S::Error>
    ensures { OnOk result
        (SendsFirst (text_member key.now text.now) (S.written out.old) (S.written out.new)) }
{
    out.key(key)?;
    out.str(text)
}

/// Sends a member whose value is a number.
pub(crate) fn send_number<S: Serializer>(key: &str, count: u64, out: &mut S) -> Result<(), S::Error>
    ensures { OnOk result
        (SendsFirst (member key.now (number (unsigned count))) (S.written out.old) (S.written out.new)) }
{
    out.key(key)?;
    out.u64(count)
}

/// The text that is kept of an interchange that was taken: its CONTRL, and what became of its
/// messages. AllocError if memory was refused, and for a slot whose block is no character of ASCII: no plan has one.
pub fn reply(alloc: Global, contrl: &str, messages: &[MessageReport]) -> Result<String, AllocError>
    ensures { IfOk result (λ s. string_bytes s ≡ reply_text contrl.now messages.now) }
{
    let told = KeptReply { contrl, messages };
    match to_string(alloc, &told) {
        Ok(text) => Ok(text),
        Err(_) => Err(AllocError),
    }
}

/// What is kept of an interchange that was taken, to be written as JSON without a tree of it.
#[derive(Clone, Copy)]
pub(crate) struct KeptReply<'a> {
    pub(crate) contrl: &'a str,
    pub(crate) messages: &'a [MessageReport],
}

impl Described for KeptReply<'_> {
    ghost writes = { λ told. SendsValue (reply_data told.contrl.now (map report_content told.messages.now)) };
}

impl Serialize for KeptReply<'_> {
    fn serialize<S: Serializer>(&self, out: &mut S) -> Result<(), S::Error> {
        send_reply(self.contrl, self.messages, out)
    }
}

/// Sends the JSON of a reply.
fn send_reply<S: Serializer>(
    contrl: &str,
    messages: &[MessageReport],
    out: &mut S,
) -> Result<(), S::Error>
    ensures { OnOk result (SendsValue (reply_data contrl.now (map report_content messages.now))
        (S.written out.old) (S.written out.new)) }
{
    out.begin_map(Some(2))?;
    send_text("contrl", contrl, out)?;
    out.key("messages")?;
    send_messages(messages, out)?;
    out.end_map()
}

/// The body of a refusal without a CONTRL: a fixed text, so that it takes no memory.
pub(crate) fn refusal_body(fault: Fault) -> &'static str
    ensures { result.now ≡ refusal_text fault }
{
    match fault {
        Fault::Syntax(fault) => syntax_body(fault),
        Fault::UnknownSender => "{\"answer\":\"refused\",\"fault\":\"UnknownSender\"}",
        Fault::WrongRecipient => "{\"answer\":\"refused\",\"fault\":\"WrongRecipient\"}",
    }
}

fn syntax_body(fault: SyntaxFault) -> &'static str
    ensures { result.now ≡ named_refusal (syntax_name fault) }
{
    match fault {
        SyntaxFault::TooLong => "{\"answer\":\"refused\",\"fault\":\"TooLong\"}",
        SyntaxFault::Service => "{\"answer\":\"refused\",\"fault\":\"Service\"}",
        SyntaxFault::Segment => "{\"answer\":\"refused\",\"fault\":\"Segment\"}",
        SyntaxFault::NoEnvelope => "{\"answer\":\"refused\",\"fault\":\"NoEnvelope\"}",
        SyntaxFault::Group => "{\"answer\":\"refused\",\"fault\":\"Group\"}",
        SyntaxFault::Version => "{\"answer\":\"refused\",\"fault\":\"Version\"}",
        SyntaxFault::Number => "{\"answer\":\"refused\",\"fault\":\"Number\"}",
        SyntaxFault::Moment => "{\"answer\":\"refused\",\"fault\":\"Moment\"}",
        SyntaxFault::Test => "{\"answer\":\"refused\",\"fault\":\"Test\"}",
        SyntaxFault::MessageFrame => "{\"answer\":\"refused\",\"fault\":\"MessageFrame\"}",
        SyntaxFault::SegmentCount => "{\"answer\":\"refused\",\"fault\":\"SegmentCount\"}",
        SyntaxFault::MessageReference => "{\"answer\":\"refused\",\"fault\":\"MessageReference\"}",
        SyntaxFault::Empty => "{\"answer\":\"refused\",\"fault\":\"Empty\"}",
        SyntaxFault::ControlCount => "{\"answer\":\"refused\",\"fault\":\"ControlCount\"}",
        SyntaxFault::ControlReference => "{\"answer\":\"refused\",\"fault\":\"ControlReference\"}",
    }
}

/// Room for what stands round a reply: the names of the members, the answer, the number and a partner's code.
const HEAD_ROOM: usize = 128;

/// The body for an interchange that was taken, now or before; `answer` says which. The reply is a text of JSON.
pub fn taken_body(
    alloc: Global,
    answer: &str,
    number: u32,
    partner: &str,
    reply: &str,
) -> Result<String, AllocError>
    ensures bytes { IfOk result (λ s.
        string_bytes s ≡ answer_text answer.now number partner.now reply.now) }

    // If the reply is the JSON of a value, the whole is the JSON of the answer.
    ensures json { IfOk result (λ s. (d : Data) → reply.now ≡ compact_text d →
        string_bytes s ≡ compact_text (answer_data answer.now number partner.now d)) }
{
    let mut body = String::with_capacity(alloc, HEAD_ROOM + reply.len())?;
    body.push_str("{\"answer\":")?;
    push_quoted(alloc, answer, &mut body)?;
    body.push_str(",\"number\":")?;
    body.push_str(Buffer::new().format(number))?;
    body.push_str(",\"partner\":")?;
    push_quoted(alloc, partner, &mut body)?;
    body.push_str(",\"reply\":")?;
    body.push_str(reply)?;
    body.push_str("}")?;
    Ok(body)
}

/// The body for an interchange that waits for the partner's next number.
pub fn waiting_body(
    alloc: Global,
    next: u32,
    number: u32,
    partner: &str,
) -> Result<String, AllocError>
    ensures { IfOk result (λ s. string_bytes s ≡ waiting_text next number partner.now) }
{
    let value = waiting_value(alloc, next, number, partner)?;
    value.to_string(alloc)
}

fn waiting_value(alloc: Global, next: u32, number: u32, partner: &str) -> Result<Value, AllocError>
    ensures { IfOk result (λ v. view v ≡ waiting_data next number partner.now) }
{
    json!(in alloc; {"answer": "waiting", "next": next, "number": number, "partner": partner})
}

/// The body for other bytes under a number that is used.
pub fn clash_body(alloc: Global, number: u32, partner: &str) -> Result<String, AllocError>
    ensures { IfOk result (λ s. string_bytes s ≡ clash_text number partner.now) }
{
    let value = clash_value(alloc, number, partner)?;
    value.to_string(alloc)
}

fn clash_value(alloc: Global, number: u32, partner: &str) -> Result<Value, AllocError>
    ensures { IfOk result (λ v. view v ≡ clash_data number partner.now) }
{
    json!(in alloc; {"answer": "clash", "number": number, "partner": partner})
}

/// The body for an interchange that is refused with a CONTRL.
pub fn refused_body(alloc: Global, contrl: &str, fault: &str) -> Result<String, AllocError>
    ensures { IfOk result (λ s. string_bytes s ≡ refused_text contrl.now fault.now) }
{
    let value = refused_value(alloc, contrl, fault)?;
    value.to_string(alloc)
}

fn refused_value(alloc: Global, contrl: &str, fault: &str) -> Result<Value, AllocError>
    ensures { IfOk result (λ v. view v ≡ refused_data contrl.now fault.now) }
{
    json!(in alloc; {"answer": "refused", "contrl": contrl, "fault": fault})
}

/// A text as JSON writes it, between quotes.
fn quoted_text(alloc: Global, text: &str) -> Result<String, AllocError>
    ensures { IfOk result (λ s. string_bytes s ≡ quoted text.now) }
{
    let value = Value::try_from_str(alloc, text)?;
    value.to_string(alloc)
}

/// Adds a text as JSON writes it, between quotes.
fn push_quoted(alloc: Global, text: &str, out: &mut String) -> Result<(), AllocError>
    ensures { OnOk result (string_bytes out.new ≡ string_bytes out.old ++ quoted text.now) }
{
    if !are_plain(text.as_bytes()) {
        let quoted = quoted_text(alloc, text)?;
        return out.push_str(quoted.as_str());
    }
    out.push_str("\"")?;
    out.push_str(text)?;
    out.push_str("\"")?;
    Ok(())
}

/// JSON writes each of the bytes as it is.
fn are_plain(bytes: &[u8]) -> bool
    ensures { result ≡ list_all is_plain bytes.now }
{
    bytes.iter().all(|byte| is_plain(*byte))
}

/// JSON writes the byte as it is.
fn is_plain(byte: u8) -> bool
    ensures { result ≡ is_plain byte }
{
    !(byte == b'"' || byte == b'\\' || byte < b' ')
}
