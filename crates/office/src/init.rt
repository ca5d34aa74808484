use crate::causes::{Audience, stderr_is_terminal, tell_store, tell_unread, tell_with};
use crate::history::may_be_made;
use crate::leaving::give_up;
use crate::links::followed;
use office_admission::{MOST_PARTNERS, Setup};
use office_commands::{
    DONE, FAILED, NO_STORE, REFUSED, leave_whole, make_store as make_over, print, tell_fault,
};
use office_explain::{
    PartnerFault, SetupFault, WrongRecord, first_wrong, partner_fault, read_setup,
};
use office_replies::Port;
use office_tables::TableFault;
use sqlite::Unknown;
use std::alloc::{AllocError, Global};
use std::fs;
use std::io::Write;

/// Makes the tables of a store with the rows of a set-up, wholly or not at all. A file that isn't there is made.
pub(crate) fn make_store(rt: &HostRuntime, path: &str, setup: &Setup) -> Result<(), TableFault> {
    if setup.partners.as_slice().len() > MOST_PARTNERS {
        return Err(TableFault::Store(NO_STORE));
    }
    let conn = make_over(rt, path, Unknown, setup)?;
    give_up(leave_whole(conn));
    Ok(())
}

/// `init DB PARTNERS BLOCKS`: makes the tables of a store by the set-up that two files say.
pub(crate) fn init<W: Write, E: Write>(
    rt: &HostRuntime,
    store: &str,
    partners: &str,
    blocks: &str,
    writer: &mut Port<W>,
    errors: &mut Port<E>,
) -> u8 {
    let Ok(partner_file) = fs::read(rt, partners) else {
        return tell_unread(rt, errors, partners);
    };
    let Ok(block_file) = fs::read(rt, blocks) else {
        return tell_unread(rt, errors, blocks);
    };
    let setup = match read_setup(rt.alloc(), &partner_file, &block_file) {
        Ok(setup) => setup,
        Err(fault) => {
            return refuse(
                rt,
                fault,
                (partners, &partner_file),
                (blocks, &block_file),
                errors,
            );
        }
    };
    let Ok(store) = followed(rt, store) else {
        return tell_fault(errors, &TableFault::Memory);
    };
    let store = store.as_str();
    if !may_be_made(rt, store, errors) {
        return FAILED;
    }
    match make_store(rt, store, &setup) {
        Ok(()) => print(writer, "ready\n", DONE),
        Err(fault) => tell_store(Audience::of(rt), errors, store, &fault),
    }
}

/// Reports the fault's name, and then to a person which record shows it. Each file comes with its path.
pub(crate) fn refuse<E: Write>(
    rt: &HostRuntime,
    fault: SetupFault,
    partners: (&str, &[u8]),
    blocks: (&str, &[u8]),
    errors: &mut Port<E>,
) -> u8 {
    let Ok(text) = format!(in rt.alloc(); "setup: {fault}\n") else {
        return tell_with(errors, "setup: Memory\n", REFUSED);
    };
    let status = tell_with(errors, text.as_str(), REFUSED);
    if errors.flush().is_ok() && stderr_is_terminal(rt) {
        if let Ok(place) = place_of(rt.alloc(), fault, partners, blocks) {
            let _ = errors.write_all(place.as_bytes());
        }
    }
    status
}

/// Which record shows a fault, and what is wrong with it.
fn place_of(
    alloc: Global,
    fault: SetupFault,
    partners: (&str, &[u8]),
    blocks: (&str, &[u8]),
) -> Result<String, AllocError> {
    let (partners_path, partners) = partners;
    let (blocks_path, blocks) = blocks;
    match first_wrong(alloc, partners, blocks, fault)? {
        Some(WrongRecord::OfPartners(number)) => {
            let words = words_of_partners(alloc, fault, partners, number)?;
            format!(in alloc; "{partners_path}, record {number}: {words}\n")
        }
        Some(WrongRecord::OfBlocks(number)) => {
            let words = words_of_blocks(number);
            format!(in alloc; "{blocks_path}, record {number}: {words}\n")
        }
        None => String::from_str(alloc, "a record is missing\n"),
    }
}

/// What is wrong with a record of partners: of a partner what it is, of any other what is right.
fn words_of_partners(
    alloc: Global,
    fault: SetupFault,
    partners: &[u8],
    number: usize,
) -> Result<&'static str, AllocError> {
    Ok(match fault {
        SetupFault::Csv if number == 1 => "the header is what,name,value",
        SetupFault::Csv => {
            "a record has three fields, in UTF-8, of which the first is terminal, partner, code or limit"
        }
        SetupFault::Terminal => "there is one terminal,CODE, and nothing after the second comma",
        SetupFault::Partner => words_of_partner(partner_fault(
            alloc,
            partners,
            number.saturating_sub(1),
        )?),
        SetupFault::Code => {
            "it is code,NAME,VALUE: each name once, of a document; VALUE 1 to 3 capitals or digits, no two alike for one type of message"
        }
        SetupFault::Limit => "there is one limit,visits,N at most, N 1 to 999999999",
        SetupFault::Block | SetupFault::Memory => "the record is wrong",
    })
}

/// What is wrong with a partner.
fn words_of_partner(fault: Option<PartnerFault>) -> &'static str {
    match fault {
        Some(PartnerFault::Code) => {
            "its code is not 1 to 35 letters, digits, hyphens, dots and underscores"
        }
        Some(PartnerFault::Kind) => "its kind is not gate, line, quay or yard",
        Some(PartnerFault::Twice) => "its code is that of a partner before it",
        Some(PartnerFault::Number) => "there are 999 partners before it, and may be no more",
        None => "it is no partner",
    }
}

/// What is right in a record of blocks.
fn words_of_blocks(number: usize) -> &'static str {
    match number {
        1 => "the header is block,bays,rows,tiers",
        _ =>
            "a block is a capital, each once, 1 to 40 bays, 1 to 12 rows and 1 to 6 tiers; there are 20 at most",
    }
}
