//! Laws of the orders of turns, each a contract of a function that does nothing.

ghost use Rattle.resh_model.specs.MarkLaws.{CommitsElse, EndsHaveCauses, OneMarkWithoutClients};
ghost use Rattle.resh_model.specs.OrderLaws.{AnswersEachOnce, AnswersOne, AsksEachOnce, DropLeaves, DropsAtOnce, DropsOnlyThere, HasOneEnd, HasOneMark, HasTurnForEach, HoldingsKeepAll, HoldingsRise, RefusedLeave, RepliesLeaveBag, RunsAreLawful, StaysPlaced, SwitchKeeps};
ghost use Rattle.resh_model.specs.WholeLaws.{GrowsByTurns, ValidIsWhole, WalksStayWhole};

/// An order has one end; the state after it is a function of the setup and the order.
pub fn orders_are_functions()
    ensures { HasOneEnd }
{}

/// In a lawful order each client's commands are asked once each, in their order, and each is answered.
pub fn orders_serve_each_once()
    ensures asked { AsksEachOnce }
    ensures turns { HasTurnForEach }
    ensures answered { AnswersEachOnce }
    ensures one { AnswersOne }
{}

/// One mark stands in a lawful order, the one of its end. An accepted abort is followed at once by its drop, which
/// stands nowhere else.
pub fn orders_have_one_mark()
    ensures mark { HasOneMark }
    ensures at_once { DropsAtOnce }
    ensures only_there { DropsOnlyThere }
{}

/// The collection changes only where the reply is `Inserted`, `Matched` or `Deleted`, and a refused turn changes only
/// the replies.
pub fn replies_leave_the_bag()
    ensures replies { RepliesLeaveBag }
    ensures refused { RefusedLeave }
{}

/// A drop leaves the collection, and a switch keeps each of its documents.
pub fn marks_keep_the_documents()
    ensures drop { DropLeaves }
    ensures switch { SwitchKeeps }
{}

/// Each document stands where the map in force places it, so no shard holds an `_id` twice, and together the shards
/// hold each document once.
pub fn walks_stay_placed()
    ensures placed { StaysPlaced }
    ensures rise { HoldingsRise }
    ensures whole { HoldingsKeepAll }
{}

/// A run without clients is a lawful order of one mark.
pub fn runs_are_lawful()
    ensures { RunsAreLawful }
{}

/// The end of a lawful order has its cause at the mark: a commit that no clash stands, a drop that clash or that abort.
/// Without clients and without failure there is no turn but the mark that the opening collection asks for.
pub fn ends_have_causes()
    ensures cause { EndsHaveCauses }
    ensures commits { CommitsElse }
    ensures one_mark { OneMarkWithoutClients }
{}

/// An order that was lawful so far grows by each turn that may come.
pub fn orders_grow()
    ensures { GrowsByTurns }
{}

/// From a valid setup each order leads to a collection whose documents have an `_id` and rising names.
pub fn orders_stay_whole()
    ensures walks { WalksStayWhole }
    ensures valid { ValidIsWhole }
{}
