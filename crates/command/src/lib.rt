// The command words.
#![tactic(auto)]

ghost use Rattle.std.specs.Prelude.{◌≡◌};
ghost use Rattle.command.specs.Commands.{queue_command_of, mail_command_of, command_of};

#[derive(Clone, Copy, Debug, PartialEq, Eq)]
pub enum Command {
    Rx,
    RxSet,
    RxPoke,
    RxList,
    Post,
    Take,
    Out,
    Burst,
    RxTail,
    RxReg,
    RxSum,
    Tx,
    TxSet,
    TxPoke,
    TxToken,
    TxCount,
    Send,
    Reclaim,
    TxTail,
    TxReg,
    TxSum,
    Int,
    Ptype,
    Mtx,
    Mrx,
    MtxSet,
    MrxSet,
    MtxPoke,
    MrxPoke,
    Mbuf,
    MtxList,
    MrxList,
    Msend,
    Mshut,
    Mdone,
    Mpost,
    Mread,
    MtxTail,
    MtxReg,
    MrxTail,
    MrxReg,
    MtxSum,
    MrxSum,
}

// Kept: two matches, since one of 43 arms is longer than the 40 lines that a function may have.
// The command of the queues that a word names, if it names one.
#[tactic(auto, using(crate::proofs::Words::no_queue_word), unfolding(crate::specs::Commands::queue_command_of))]
fn queue_command_of(word: &[u8]) -> Option<Command>
    ensures { result ≡ queue_command_of word.now }
{
    match word {
        b"rx" => Some(Command::Rx),
        b"rxset" => Some(Command::RxSet),
        b"rxpoke" => Some(Command::RxPoke),
        b"rxlist" => Some(Command::RxList),
        b"post" => Some(Command::Post),
        b"take" => Some(Command::Take),
        b"out" => Some(Command::Out),
        b"burst" => Some(Command::Burst),
        b"rxtail" => Some(Command::RxTail),
        b"rxreg" => Some(Command::RxReg),
        b"rxsum" => Some(Command::RxSum),
        b"tx" => Some(Command::Tx),
        b"txset" => Some(Command::TxSet),
        b"txpoke" => Some(Command::TxPoke),
        b"txtoken" => Some(Command::TxToken),
        b"txcount" => Some(Command::TxCount),
        b"send" => Some(Command::Send),
        b"reclaim" => Some(Command::Reclaim),
        b"txtail" => Some(Command::TxTail),
        b"txreg" => Some(Command::TxReg),
        b"txsum" => Some(Command::TxSum),
        b"int" => Some(Command::Int),
        b"ptype" => Some(Command::Ptype),
        _ => None,
    }
}

// The command of the mailbox that a word names, if it names one.
#[tactic(auto, using(crate::proofs::Words::no_mail_word), unfolding(crate::specs::Commands::mail_command_of))]
fn mail_command_of(word: &[u8]) -> Option<Command>
    ensures { result ≡ mail_command_of word.now }
{
    match word {
        b"mtx" => Some(Command::Mtx),
        b"mrx" => Some(Command::Mrx),
        b"mtxset" => Some(Command::MtxSet),
        b"mrxset" => Some(Command::MrxSet),
        b"mtxpoke" => Some(Command::MtxPoke),
        b"mrxpoke" => Some(Command::MrxPoke),
        b"mbuf" => Some(Command::Mbuf),
        b"mtxlist" => Some(Command::MtxList),
        b"mrxlist" => Some(Command::MrxList),
        b"msend" => Some(Command::Msend),
        b"mshut" => Some(Command::Mshut),
        b"mdone" => Some(Command::Mdone),
        b"mpost" => Some(Command::Mpost),
        b"mread" => Some(Command::Mread),
        b"mtxtail" => Some(Command::MtxTail),
        b"mtxreg" => Some(Command::MtxReg),
        b"mrxtail" => Some(Command::MrxTail),
        b"mrxreg" => Some(Command::MrxReg),
        b"mtxsum" => Some(Command::MtxSum),
        b"mrxsum" => Some(Command::MrxSum),
        _ => None,
    }
}

// The command that a word names, if it names one.
#[tactic(auto, using(crate::proofs::Words::by_parts))]
pub fn command_of(word: &[u8]) -> Option<Command>
    ensures { result ≡ command_of word.now }
{
    queue_command_of(word).or(mail_command_of(word))
}
