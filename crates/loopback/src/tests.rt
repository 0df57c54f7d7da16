//! The same promises on the compiled code, at examples and at the limits.
use crate::tally::{Fault, tabulate};
use serial::account::Account;
use serial::example::worked_examples;
use serial::life::{Move, Way, live};
use serial::queue::{Numbers, Place};
use serial::slip::{ReceiveCode, ShiftCode, Slip};
use serial::word::Form;
use std::test::Fail;

#[test]
fn worked_examples_come_as_written(rt: HostRuntime) {
    for example in &worked_examples() {
        assert_eq!(rt; example.sending.line(), (example.bits, example.count));
    }
}

#[test]
fn only_select_bits_choose_a_form(rt: HostRuntime) -> Result<(), Fail> {
    for select in 0..8 {
        let form = Form::from_select(select).ok_or("no form")?;
        assert_eq!(rt; form.select(), select);
    }
    assert!(rt; Form::from_select(8).is_none());
    assert!(rt; Form::from_select(255).is_none());
    Ok(())
}

#[test]
fn a_word_has_no_bit_past_its_last(rt: HostRuntime) {
    assert_eq!(rt; Form::EightOdd.read_flipped(0x41, 8), Some((0x41, true)));
    assert_eq!(rt; Form::EightOdd.read_flipped(0x41, 9), None);
    assert_eq!(rt; Form::Seven.read_flipped(0xc1, 0), Some((0x40, false)));
    assert_eq!(rt; Form::Seven.read_flipped(0xc1, 7), None);
}

#[test]
fn an_order_above_the_limit_is_refused(rt: HostRuntime) -> Result<(), Fail> {
    let mut order = vec![in rt.alloc(); 0x41; 4096]?;
    assert!(rt; tabulate(rt.alloc(), order.as_slice()).is_ok());
    order.push(0x41)?;
    assert!(rt; tabulate(rt.alloc(), order.as_slice()).is_err_and(|fault| fault == Fault::TooLong));
    Ok(())
}

// A slip with one receive code, and three numbers for it.
fn receive_slip(receive: ReceiveCode, first: u32, second: u32, third: u32) -> Slip {
    let mut slip = Slip::quiet();
    slip.receive = receive;
    slip.received = Numbers {
        first,
        second,
        third,
    };
    slip
}

#[test]
fn the_account_counts_each_number_once(rt: HostRuntime) -> Result<(), Fail> {
    let mut sending = Slip::quiet();
    sending.shift = ShiftCode::Bit;
    sending.shifted = 1;
    let slips = [
        receive_slip(ReceiveCode::Delivered, 1, 0, 0),
        receive_slip(ReceiveCode::DeliveredMarked, 2, 0, 0),
        receive_slip(ReceiveCode::Cleared, 3, 4, 5),
        receive_slip(ReceiveCode::Nothing, 6, 7, 8),
        sending,
    ];
    let account = Account::of(&slips).ok().ok_or("refused")?;
    assert_eq!(rt; account.delivered, 2);
    assert_eq!(rt; account.received_cleared, 3);
    assert_eq!(rt; account.lost, 0);
    assert_eq!(rt; account.sent, 0);
    Ok(())
}

// The first one is displaced by the second, which rises and is taken.
#[test]
fn a_life_is_told_move_by_move(rt: HostRuntime) -> Result<(), Fail> {
    let moves = [Move::Enter, Move::Enter, Move::Rise, Move::Take];
    let life = live(rt.alloc(), &moves).ok().ok_or("stopped")?;
    assert_eq!(rt; life.told.len(), 4);
    assert!(rt; life.told[0].way.is_none());
    assert_eq!(rt; life.told[1].way, Some(Way::Displaced));
    assert_eq!(rt; life.told[1].who.first, 1);
    assert!(rt; life.told[2].way.is_none());
    assert_eq!(rt; life.told[3].way, Some(Way::Taken));
    assert_eq!(rt; life.told[3].who.first, 2);
    assert!(rt; life.standing.at(Place::Three).is_none());
    Ok(())
}
