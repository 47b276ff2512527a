// The new machine, which is all zero, written over whatever stood there.
#![tactic(auto)]

ghost use Rattle.statuses.specs.Statuses.{status};
ghost use Rattle.machine.specs.Lent.{slices};
ghost use Rattle.renewing.specs.Renewed.{Renewed};

use def::Refusal;
use sizing::is_sized;

pub fn renew(keys: &mut [u64], rows: &mut [u32], registers: &mut [u32]) -> Result<(), Refusal>
    ensures { let before = slices keys.old rows.old registers.old in
        let after = slices keys.new rows.new registers.new in
        Renewed (status result) before after }
{
    if !is_sized(keys, rows, registers) {
        return Err(Refusal::BadLine);
    }
    keys.fill(0);
    rows.fill(0);
    registers.fill(0);
    Ok(())
}
