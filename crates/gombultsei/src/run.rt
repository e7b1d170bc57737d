ghost use Rattle.std.specs.Prelude.{◌≡◌};
ghost use Rattle.gombultsei.specs.Numbers.{call_of};
ghost use Rattle.gombultsei.specs.Run.{left_by, one_call, linked_run};

use crate::exchange::{AnswerNumbers, CallNumbers, Exchange, call_of, numbers_of};
use board::Board;
use fabric::Fabric;
use ring::Ring;

// Makes a board over a new ring, and does the calls of a list on it, one after the other. Each is given what the board said. The answer is 0, or the number of the
// refusal where no board of that size is made; then nothing is written.
#[unsafe(no_mangle)]
pub extern "C" fn gombultsei_run(shims: u32, lines: u32, exchanges: &mut [Exchange]) -> u8
    ensures { (result, exchanges.new) ≡ linked_run shims lines exchanges.old }
{
    let mut ring = Ring::new(shims as usize);
    match Board::new(&ring, shims, lines) {
        Ok(mut board) => {
            for exchange in exchanges.iter_mut() {
                exchange.answer = one_call(&mut board, &mut ring, exchange.call);
            }
            0
        }
        Err(refusal) => refusal.into(),
    }
}

// Does a call on a board.
fn one_call<F: Fabric>(board: &mut Board, fabric: &mut F, call: CallNumbers) -> AnswerNumbers
    ensures lender { F.Fabric.lender fabric.new ≡ F.Fabric.lender fabric.old }
    ensures rule { left_by result board.new (F.Fabric.model fabric.new) ≡ one_call board.old (F.Fabric.model fabric.old) (call_of call) }
{
    match call_of(call) {
        Some(call) => numbers_of(Some(board.call(fabric, call))),
        None => numbers_of(None),
    }
}

#[cfg(test)]
mod tests {
    use super::*;
    use std::test::Fail;

    fn asking(call: (u8, u8, u32, u32, u32)) -> Exchange {
        let (kind, strength, shim, line, value) = call;
        Exchange {
            call: CallNumbers {
                kind,
                strength,
                shim,
                line,
                value,
            },
            answer: AnswerNumbers {
                kind: 0,
                number: 0,
                carried: 0,
            },
        }
    }

    // The panel (shim 0) stores a word, and the heater (shim 1) loads it; the last three are no shim, an empty lane, and no call.
    #[test]
    fn a_list_by_numbers(rt: HostRuntime) -> Result<(), Fail> {
        let mut list = [
            asking((2, 2, 0, 0, 730)),
            asking((5, 0, 0, 0, 0)),
            asking((1, 1, 1, 0, 0)),
            asking((5, 0, 1, 0, 0)),
            asking((6, 0, 1, 0, 0)),
            asking((5, 0, 2, 0, 0)),
            asking((6, 0, 1, 0, 0)),
            asking((7, 0, 0, 0, 0)),
        ];
        assert_eq!(rt; gombultsei_run(2, 1, &mut list), 0);
        let told = [
            (1, 0, 0),
            (5, 1, 0),
            (2, 0, 0),
            (5, 2, 0),
            (3, 0, 730),
            (6, 3, 0),
            (6, 11, 3),
            (0, 0, 0),
        ];
        for (exchange, (kind, number, carried)) in list.iter().zip(told) {
            assert_eq!(rt; exchange.answer.kind, kind);
            assert_eq!(rt; exchange.answer.number, number);
            assert_eq!(rt; exchange.answer.carried, carried);
        }
        Ok(())
    }

    #[test]
    fn no_board_of_nine_shims(rt: HostRuntime) -> Result<(), Fail> {
        let mut list = [asking((1, 0, 0, 0, 0))];
        assert_eq!(rt; gombultsei_run(9, 1, &mut list), 1);
        assert_eq!(rt; list[0].answer.kind, 0);
        Ok(())
    }
}
