// The statement of an account from which every period's minutes were charged out and handed back.
ghost use Rattle.std.specs.Prelude.{◌≡◌, ◌≤◌, length, pos, IfOk, IfErr, Some};
ghost use Rattle.commands.specs.declared.ledger.Posting.TheVariants.{Charge};
ghost use Rattle.commands.specs.declared.ledger.Refusal.TheVariants.{Memory, OutOfRange};
ghost use Rattle.commands.specs.Ledger.{worths, all_out, Beyond};
ghost use Rattle.commands.specs.Statements.{Closed};
ghost use Rattle.commands.specs.Texts.{statement_text, closing};

use crate::ledger::{Entry, Refusal, out_and_back};
use money::{Money, PricedTime, Scale, ScaledMoney, TimeAccount};
use std::alloc::Global;
use std::fmt;

// The ledger, the balance at its end in K-ths, and that balance in whole money, rounded up once.
#[derive(Drop)]
pub struct Statement {
    pub scale: Scale,
    pub ledger: Vec<Entry>,
    pub balance: ScaledMoney,
    pub whole: Money,
}

impl Statement {
    // Opens an account at zero, charges every period's minutes out and hands the same back.
    pub fn new(heap: Global, scale: Scale, times: &[PricedTime]) -> Result<Statement, Refusal>
        ensures closed { IfOk result (λ s. Closed scale.number (worths times.now) s) }
        ensures cause { IfErr result (λ e. e ≡ OutOfRange → Beyond Charge (all_out (pos 0) (worths times.now))) }
        ensures few { length times.now ≤ 32 → IfErr result (λ e. e ≡ Memory) }
    {
        let mut account = TimeAccount::new(ScaledMoney::new(0));
        let ledger = out_and_back(heap, &mut account, times)?;
        let balance = account.balance();
        let whole = balance.rounded_up(scale);
        Ok(Statement {
            scale,
            ledger,
            balance,
            whole,
        })
    }
}

impl fmt::Display for Statement {
    ghost output = { λ s. Some (statement_text s.scale.number s.ledger.items s.balance.count s.whole.count) };

    fn fmt<W: fmt::Write>(&self, f: &mut fmt::Formatter<W>) -> fmt::Result {
        for entry in &self.ledger {
            writeln!(f, "{entry}")?;
        }
        let (balance, whole) = (self.balance, self.whole);
        let (k, end) = (self.scale.k(), ending(balance));
        write!(
            f,
            "balance {balance} in K-ths at scale {k}, whole {whole}{end}"
        )
    }
}

// The end of a statement's last line.
fn ending(balance: ScaledMoney) -> &'static str
    ensures { result.now ≡ closing balance.count }
{
    if balance.is_zero() {
        ", closed\n"
    } else {
        "\n"
    }
}
