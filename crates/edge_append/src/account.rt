// The account: "a table of whole numbers, four kinds by three outcomes", added cell by cell from the pass states between the parts of an object.
ghost use Rattle.std.specs.Prelude.{◌≡◌};
ghost use Rattle.edge_append.specs.Account.{row_after, RowIn, Grows, AccountIn, account_after};

use super::Pass;

fn added(row: [u64; 3], before: Pass, after: Pass) -> [u64; 3]
    requires { RowIn row before × Grows before after }
    ensures { result ≡ row_after row before after }
{
    [
        row[0] + (after.edges - before.edges) as u64,
        row[1] + (after.weak - before.weak) as u64,
        row[2] + (after.missing - before.missing),
    ]
}

fn counted(
    account: [[u64; 3]; 4],
    s0: Pass,
    s1: Pass,
    s2: Pass,
    s3: Pass,
    s4: Pass,
) -> [[u64; 3]; 4]
    requires { AccountIn account s0 × Grows s0 s1 × Grows s1 s2 × Grows s2 s3 × Grows s3 s4 }
    ensures { result ≡ account_after account s0 s1 s2 s3 s4 }
{
    let slots = added(account[0], s0, s1);
    let elements = added(account[1], s1, s2);
    let statics = added(account[2], s2, s3);
    let loaders = added(account[3], s3, s4);
    [slots, elements, statics, loaders]
}

// The account lent, after the four parts of an object.
pub fn tally(account: &mut [[u64; 3]; 4], s0: Pass, s1: Pass, s2: Pass, s3: Pass, s4: Pass)
    requires { AccountIn account.old s0 × Grows s0 s1 × Grows s1 s2 × Grows s2 s3 × Grows s3 s4 }
    ensures { account.new ≡ account_after account.old s0 s1 s2 s3 s4 }
{
    let table = *account;
    let next = counted(table, s0, s1, s2, s3, s4);
    *account = next;
}
