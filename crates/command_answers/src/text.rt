// The line that tells how a command ended.
ghost use Rattle.std.specs.Prelude.{◌≡◌, [], ◌++◌, ◌≤◌, ◌+◌, length, codes};
ghost use Rattle.std.specs.Fmt.{decimal};
ghost use Rattle.arrayvec.specs.ArrayVec.{array_vec_len};
ghost use Rattle.command_answers.specs.StatusText.{name_of_role, config_fault_number, config_fault_held, held_number, image_fault_number, image_fault_held, option_held, text_of_status, IsTold};

use crate::Status;
use arrayvec::ArrayVec;
use chip_config::ConfigFault;
use conda_base::{push_bytes, push_decimal};
use conda_host::Role;
use elf_loader::ImageFault;

type Line = ArrayVec<u8, 128>;

fn role_name(role: Role) -> &'static [u8]
    ensures name { result.now ≡ name_of_role role }
    ensures short { length result.now ≤ 8 }
{
    match role {
        Role::Config => b"config",
        Role::Image => b"image",
        Role::Schedule => b"schedule",
        Role::Order => b"order",
        Role::Report => b"report",
        Role::Output => b"output",
        Role::Source => b"source",
        Role::Program => b"program",
    }
}

// Appends a number of 64 bits, which has 20 digits at most.
fn push_number(out: &mut Line, number: u64)
    requires { array_vec_len out.old + 20 ≤ 128 }
    ensures text { out.new.items ≡ out.old.items ++ decimal number }
    ensures len { array_vec_len out.new ≤ array_vec_len out.old + 20 }
{
    push_decimal(out, number);
}

fn push_pair(out: &mut Line, first: &[u8], one: u64, second: &[u8], two: u64)
    requires room { array_vec_len out.old ≤ 20 }
    requires first { length first.now ≤ 20 }
    requires second { length second.now ≤ 20 }
    ensures { out.new.items ≡ out.old.items ++
        (first.now ++ decimal one ++ second.now ++ decimal two) }
{
    push_bytes(out, first);
    push_number(out, one);
    push_bytes(out, second);
    push_number(out, two);
}

// Appends a space and a number that a fault holds.
fn push_held(out: &mut Line, number: u64)
    requires { array_vec_len out.old + 21 ≤ 128 }
    ensures text { out.new.items ≡ out.old.items ++ held_number number }
    ensures len { array_vec_len out.new ≤ array_vec_len out.old + 21 }
{
    push_bytes(out, b" ");
    push_number(out, number);
}

fn config_number(fault: ConfigFault) -> u8
    ensures { result ≡ config_fault_number fault }
{
    match fault {
        ConfigFault::NotJson => 1,
        ConfigFault::NotObject => 2,
        ConfigFault::UnknownKey => 3,
        ConfigFault::NotNumber(_) => 4,
        ConfigFault::OutOfRange(_, _) => 5,
        ConfigFault::BadMemory(_, _) => 6,
        ConfigFault::OutOfMemory => 0,
    }
}

fn push_config_fault(out: &mut Line, fault: ConfigFault)
    requires { out.old.items ≡ [] }
    ensures { out.new.items ≡ codes "conda: config fault " ++ decimal (config_fault_number fault)
        ++ config_fault_held fault }
{
    push_bytes(out, b"conda: config fault ");
    push_number(out, u64::from(config_number(fault)));
    match fault {
        ConfigFault::NotNumber(key) => push_held(out, u64::from(key)),
        ConfigFault::OutOfRange(key, number) => {
            push_held(out, u64::from(key));
            push_held(out, number);
        }
        ConfigFault::BadMemory(base, bytes) => {
            push_held(out, u64::from(base));
            push_held(out, u64::from(bytes));
        }
        _ => {}
    }
}

fn image_number(fault: ImageFault) -> u8
    ensures { result ≡ image_fault_number fault }
{
    match fault {
        ImageFault::Short => 1,
        ImageFault::NotElf => 2,
        ImageFault::NotClass32 => 3,
        ImageFault::NotLittle => 4,
        ImageFault::BadVersion => 5,
        ImageFault::NotExec => 6,
        ImageFault::NotRiscv => 7,
        ImageFault::BadFlags(_) => 8,
        ImageFault::BadHeaderSize => 9,
        ImageFault::TooManySegments(_) => 10,
        ImageFault::TableOutside => 11,
        ImageFault::Dynamic(_) => 12,
        ImageFault::BadSegment(_) => 13,
        ImageFault::SegmentOutside(_) => 14,
        ImageFault::Overlap(_) => 15,
        ImageFault::NoSegment => 16,
        ImageFault::BadEntry(_) => 17,
        ImageFault::OutOfMemory => 0,
    }
}

fn held_by(fault: ImageFault) -> Option<u32>
    ensures { option_held result ≡ image_fault_held fault }
{
    match fault {
        ImageFault::BadFlags(flags) => Some(flags),
        ImageFault::TooManySegments(number)
        | ImageFault::Dynamic(number)
        | ImageFault::BadSegment(number)
        | ImageFault::SegmentOutside(number)
        | ImageFault::Overlap(number) => Some(u32::from(number)),
        ImageFault::BadEntry(entry) => Some(entry),
        _ => None,
    }
}

fn push_image_fault(out: &mut Line, fault: ImageFault)
    requires { out.old.items ≡ [] }
    ensures { out.new.items ≡ codes "conda: image fault " ++ decimal (image_fault_number fault)
        ++ image_fault_held fault }
{
    push_bytes(out, b"conda: image fault ");
    push_number(out, u64::from(image_number(fault)));
    if let Some(held) = held_by(fault) {
        push_held(out, u64::from(held));
    }
}

/// The line of a status, without its line feed, in an empty buffer; nothing for `Done`.
pub fn status_text(s: &Status, out: &mut ArrayVec<u8, 128>)
    requires empty { out.old.items ≡ [] }
    requires told { IsTold s.now }
    ensures { out.new.items ≡ text_of_status s.now }
{
    match *s {
        Status::Done => {}
        Status::Usage => push_bytes(out, b"conda: usage"),
        Status::ReadFault(role) => {
            push_bytes(out, b"conda: cannot read ");
            push_bytes(out, role_name(role));
        }
        Status::WriteFault(role) => {
            push_bytes(out, b"conda: cannot write ");
            push_bytes(out, role_name(role));
        }
        Status::Config(fault) => push_config_fault(out, fault),
        Status::Image(fault) => push_image_fault(out, fault),
        Status::Schedule { line, why } => {
            push_bytes(out, b"conda: ");
            push_pair(out, b"schedule line ", line, b" fault ", u64::from(why));
        }
        Status::TooLarge { role, limit } => {
            push_bytes(out, b"conda: ");
            push_bytes(out, role_name(role));
            push_bytes(out, b" passes ");
            push_number(out, limit);
        }
        Status::OutOfMemory => push_bytes(out, b"conda: out of memory"),
        Status::Syntax { line, why } => {
            push_bytes(out, b"conda: ");
            push_pair(out, b"syntax line ", line, b" fault ", u64::from(why));
        }
    }
}
