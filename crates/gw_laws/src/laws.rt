// Laws of every run from zero.
ghost use Rattle.gw_laws.specs.Anew.{ClearBeginsAnew, ResetMovesNobody, ResetCountsAnew, TabulateAddsOneValue};
ghost use Rattle.gw_laws.specs.Chain.{ChainIsInOrder, ChainIsFirstInFirstOut};
ghost use Rattle.gw_laws.specs.Chain.{FirstBecomesActive, TheFirstIsPicked, AllOfATimeCome};
ghost use Rattle.gw_laws.specs.Chain.{FutureKeepsItsOrder, NobodyLeavesBeforeHisTime};
ghost use Rattle.gw_laws.specs.Clock.{ClockNeverGoesBack, ClockStaysWithin, NothingIsOverdue};
ghost use Rattle.gw_laws.specs.Clock.{ClockMovesOnlyWhenItMust, ClockMovesWhenItMust};
ghost use Rattle.gw_laws.specs.Contents.{ContentsAreCounts};
ghost use Rattle.gw_laws.specs.Copies.{TheParentStaysActive, EachCopyHasANumber, CopiesAreAlike, CopiesInherit};
ghost use Rattle.gw_laws.specs.Copies.{CopiesCameToNoQueue, CopiesLineUpInOrder, CopiesAreNoEntries};
ghost use Rattle.gw_laws.specs.Copies.{CopiesStandInTheBlock};
ghost use Rattle.gw_laws.specs.Delays.{DelaysAreInOrder, DelaysAreFirstInFirstOut, WhoWaitsKeepsHisPlace};
ghost use Rattle.gw_laws.specs.Delays.{WhoWaitsIsBound, WhoLeavesIsLetIn, FirstTakesOver, NobodyWaitsAtAFreeFacility};
ghost use Rattle.gw_laws.specs.Destinations.{GoesToItsDestination, OthersStayInTheirBlocks};
ghost use Rattle.gw_laws.specs.Ends.{EndsBehindALastState, EndsForGood};
ghost use Rattle.gw_laws.specs.Ends.{EndsDone, EndsDry, EndsAtHorizon, ErrorsAreOfAttempts};
ghost use Rattle.gw_laws.specs.Facilities.{FacilitiesAreUsed};
ghost use Rattle.gw_laws.specs.Numbering.{NumbersAreApart, NumbersAreGiven, NumbersAreGivenOnce, OnlyTheActiveGoes};
ghost use Rattle.gw_laws.specs.Items.{AnItemIsItself};
ghost use Rattle.gw_laws.specs.Owners.{OnlyTheOwnerGivesBack, TheFirstIsGivenIt, OnlyTheActiveTakes};
ghost use Rattle.gw_laws.specs.Parameters.{ParametersAreOfTheLiving, ParametersAreOnesOwn, OneParameterIsSet};
ghost use Rattle.gw_laws.specs.Places.{EachHasAPlace, EachHasOnePlace};
ghost use Rattle.gw_laws.specs.Priorities.{PrioritiesAreOnesOwn};
ghost use Rattle.gw_laws.specs.Queues.{QueuesAreWithin};
ghost use Rattle.gw_laws.specs.Starts.{StartsAreDoneInOrder, NoMoreStartsThanThereAre};
ghost use Rattle.gw_laws.specs.Storages.{StoragesAreWithin, NobodyWaitsAtRoom};
ghost use Rattle.gw_laws.specs.Tests.{EachIsAnOperator, HoldsAsItSays};
ghost use Rattle.gw_laws.specs.UserChains.{UserChainsChangeByLinkAndUnlink, FewerByUnlinkAlone, WhoLeavesIsUnlinked};
ghost use Rattle.gw_laws.specs.UserChains.{UserChainsAreFirstInFirstOut};
ghost use Rattle.gw_laws.specs.Verbs.{EachVerbIsEvaluated};
ghost use Rattle.gw_laws.specs.Waiters.{WaitersKeepTheirOrder, WokenInOrder, WokenByWhatIsWritten};
ghost use Rattle.gw_laws.specs.Waiters.{WhoWaitsIsAtATestOrAGate};
ghost use Rattle.gw_laws.specs.Waiters.{NobodyWakesWhereNoneIsActive, NobodyWakesUnlessABlockIsEntered};
ghost use Rattle.gw_laws.specs.Waiters.{NobodyWakesWhereTheActiveHasToWait, WhoWakesReadWhatChanged};
ghost use Rattle.gw_laws.specs.Waiters.{NobodyWaitsAtAnOpenGate, NobodyWaitsAtATestThatHolds, TellingChangesNothing};

/// The current chain is in order of priority. Of one priority, the first transactions leave it in a step, those that
/// stay keep their order, and those that come stand after them. Whoever becomes active was the first of all, and where
/// none is active while a START is under way, the first becomes so. Where the clock moves on, all transactions of its
/// new time come, in the order in which they came onto the future chain. On that chain, whoever stays in a step keeps
/// his place, and whoever comes stands after. Nobody leaves it but at his time, unless a CLEAR removes all.
pub fn chain_in_order()
    ensures order { ChainIsInOrder }
    ensures turn { ChainIsFirstInFirstOut }
    ensures first { FirstBecomesActive }
    ensures picked { TheFirstIsPicked }
    ensures come { AllOfATimeCome }
    ensures future { FutureKeepsItsOrder }
    ensures time { NobodyLeavesBeforeHisTime }
{}

/// Each delay chain is in order of priority. Of one priority, those that go on waiting keep their places in a step, and
/// those that come stand after them. Whoever waits has a block to go to. Whoever waits no longer stands on the current
/// chain, in that block. At a facility, the first leaves first: where its chain gets shorter, its first transaction has
/// left it, and owns the facility. So it is where no CLEAR removes all. Nobody waits at a free facility.
pub fn delays_in_order()
    ensures order { DelaysAreInOrder }
    ensures turn { DelaysAreFirstInFirstOut }
    ensures places { WhoWaitsKeepsHisPlace }
    ensures bound { WhoWaitsIsBound }
    ensures leaves { WhoLeavesIsLetIn }
    ensures first { FirstTakesOver }
    ensures free { NobodyWaitsAtAFreeFacility }
{}

/// Whoever waits at a TEST or a GATE for a change keeps his place in a step, and at most the one who was active comes,
/// as it was, after the others. Whoever read something that the step writes wakes, and is on the current chain then,
/// and whoever did not, waits on, unless a CLEAR removes all. Of two of one priority whom a step wakes, the one who
/// came first stands in front. The block to which whoever waits so goes is a TEST or a GATE without a label.
pub fn waiters_wake_in_order()
    ensures places { WaitersKeepTheirOrder }
    ensures turn { WokenInOrder }
    ensures woken { WokenByWhatIsWritten }
    ensures there { WhoWaitsIsAtATestOrAGate }
{}

/// In a step a user chain stays as it is, an UNLINK of it takes some from its front, a LINK to it brings the one who
/// was active, to the back by FIFO and to the front by LIFO, and counts him, a RESET counts it anew and moves nobody,
/// or a CLEAR empties it. So where fewer are on it and the step was no CLEAR, it was an UNLINK of it. Whoever leaves it
/// is on the current chain then, sent to the block of that UNLINK. Where each LINK of the version has the order FIFO,
/// each user chain is first in, first out.
pub fn user_chains_in_order()
    ensures served { UserChainsChangeByLinkAndUnlink }
    ensures fewer { FewerByUnlinkAlone }
    ensures leaves { WhoLeavesIsUnlinked }
    ensures turn { UserChainsAreFirstInFirstOut }
{}

/// A transaction that enters a SPLIT stays active, and stands in its block. Each copy has a number of its own, in their
/// order: so many are given as copies are made. It has the priority, the mark time, the block and the parameters of
/// that transaction, and goes to the block of the SPLIT's label, or on from its own. It came to no queue. The copies
/// stand on the current chain in the order of their numbers, after all of their priority. A copy stands in its block
/// and is no entry of it.
pub fn copies_are_made()
    ensures parent { TheParentStaysActive }
    ensures numbers { EachCopyHasANumber }
    ensures alike { CopiesAreAlike }
    ensures parameters { CopiesInherit }
    ensures queues { CopiesCameToNoQueue }
    ensures order { CopiesLineUpInOrder }
    ensures entries { CopiesAreNoEntries }
    ensures content { CopiesStandInTheBlock }
{}

/// The clock, a pick, a command and a refused attempt wake nobody. Where no transaction is active, where the active one
/// has to wait, and wherever no block is entered, all who waited wait on, in their order, and after them at most the
/// one who was active, unless a CLEAR removes all. Whoever wakes where a block is entered read something that changed:
/// the counts of a block that is left or entered, by the active transaction or by one that is let in, the entity that
/// the block names, or the user chain to which it links or from which it unlinks.
pub fn nobody_wakes_for_nothing()
    ensures idle { NobodyWakesWhereNoneIsActive }
    ensures refused { NobodyWakesWhereTheActiveHasToWait }
    ensures entry { NobodyWakesUnlessABlockIsEntered }
    ensures changed { WhoWakesReadWhatChanged }
{}

/// Nobody waits at a GATE whose condition holds of the entity that its operand names. Nobody waits at a TEST whose
/// relation holds, where its values read nothing but what stays until a block writes it: F, Q, S, R, W, X, LS and CH,
/// and the parameters, the priority and the number of who waits; and, where no RESET was done since he came to wait, FC,
/// QC, QM, QZ, SC, SM, N, CC and TC, too.
pub fn nobody_waits_for_what_holds()
    ensures gate { NobodyWaitsAtAnOpenGate }
    ensures test { NobodyWaitsAtATestThatHolds }
{}

/// An attempt that tells what it read, to wait for it, evaluates its operands as every other does: it comes to the
/// same, ends the same, leaves the same streams, and asks no other items.
pub fn telling_changes_nothing()
    ensures { TellingChangesNothing }
{}

/// No two transactions have one number, and each number was given: it is below the next one. No number is given twice,
/// unless a CLEAR lets the numbering begin at 1 again. In a step no transaction but the active one ceases to live,
/// unless a CLEAR removes all.
pub fn numbers_apart()
    ensures apart { NumbersAreApart }
    ensures given { NumbersAreGiven }
    ensures once { NumbersAreGivenOnce }
    ensures loss { OnlyTheActiveGoes }
{}

/// Parameters are kept of living transactions alone: those of a transaction that is destroyed are forgotten.
pub fn parameters_are_of_the_living()
    ensures { ParametersAreOfTheLiving }
{}

/// Of those who were there before a step, only the active transaction's parameters, priority and mark time change in
/// it, and at most one of its parameters. A CLEAR forgets all of them.
pub fn each_keeps_his_own()
    ensures parameters { ParametersAreOnesOwn }
    ensures one { OneParameterIsSet }
    ensures values { PrioritiesAreOnesOwn }
{}

/// Each transaction stands in exactly one place: it is active, on the current chain, on the future chain, on the delay
/// chain of one facility or storage, on the retry chain, or on one user chain.
pub fn each_has_one_place()
    ensures some { EachHasAPlace }
    ensures one { EachHasOnePlace }
{}

/// The active transaction goes to its destination where it has one, and else to the block after its own: in a step it
/// enters that block, waits to enter it, or waits as it came, at a TEST or a GATE without a label, for a change of
/// something that it read. Whoever is on the current, the future or the retry chain stays in his block, with his
/// destination.
pub fn goes_where_it_is_sent()
    ensures goes { GoesToItsDestination }
    ensures stays { OthersStayInTheirBlocks }
{}

/// A block's content is the number of the transactions that stand in it.
pub fn contents_are_counts()
    ensures { ContentsAreCounts }
{}

/// The clock never goes back, unless a CLEAR sets it to 0, and stays within the horizon, and no time on the future
/// chain lies before it. It moves on only where no transaction was active or on the current chain, and only to the
/// least time of the future chain. While a START is under way, it does so there, where that time lies within the
/// horizon.
pub fn clock_goes_on()
    ensures clock { ClockNeverGoesBack }
    ensures within { ClockStaysWithin }
    ensures future { NothingIsOverdue }
    ensures must { ClockMovesOnlyWhenItMust }
    ensures moves { ClockMovesWhenItMust }
{}

/// A run that ended has a last state, from which no step follows, and stays ended. It ends where no START is under way
/// and no command is left; where a START is under way and there is no transaction to move; and where those that are to
/// move stand on the future chain, each at a time above the horizon. It ends so nowhere else. By an error it ends only
/// in the attempt of the active transaction, or in priming.
pub fn runs_end()
    ensures last { EndsBehindALastState }
    ensures stays { EndsForGood }
    ensures done { EndsDone }
    ensures dry { EndsDry }
    ensures horizon { EndsAtHorizon }
    ensures error { ErrorsAreOfAttempts }
{}

/// A facility has no more captures than steps were made, and a RESET counts them anew. Its content is 1 while it is
/// owned and 0 while it is free. It was owned for no longer than the clock has run, and it did not change later than
/// now.
pub fn facilities_are_used()
    ensures { FacilitiesAreUsed }
{}

/// Nobody but its owner gives a facility back. It goes to the first that waits for it, and is free where nobody does.
/// Nobody but the active transaction takes one that was free before the step. After a CLEAR all are free.
pub fn facilities_have_owners()
    ensures gives { OnlyTheOwnerGivesBack }
    ensures given { TheFirstIsGivenIt }
    ensures takes { OnlyTheActiveTakes }
{}

/// No count of a queue is above 1,000,000,000, and no queue changed later than now.
pub fn queues_are_within()
    ensures { QueuesAreWithin }
{}

/// A storage is called by a name. No more units are in use, or ever were, than the version gives the storage of this
/// name. What is in use lies between its least and its greatest. No count of its entries is above 1,000,000,000, and it
/// did not change later than now. Nobody waits at a storage that has room for what he asks, the units with which he was
/// refused.
pub fn storages_are_within()
    ensures within { StoragesAreWithin }
    ensures room { NobodyWaitsAtRoom }
{}

/// STARTs are done in the order of the commands, and each is counted once: those that are complete, and the one under
/// way, are those among the commands that are done. No more are complete than there are.
pub fn starts_are_counted()
    ensures order { StartsAreDoneInOrder }
    ensures few { NoMoreStartsThanThereAre }
{}

/// A TEST that is read holds of two values exactly where its operator's word says so: `E` equal, `NE` not equal, `G`
/// greater, `GE` greater or equal, `L` less, `LE` less or equal. Each of the six words is read.
pub fn tests_hold_as_they_say()
    ensures holds { HoldsAsItSays }
    ensures words { EachIsAnOperator }
{}

/// No verb of a block that is read is left out of the evaluation: some block of it is entered in some state.
pub fn each_verb_is_evaluated()
    ensures { EachVerbIsEvaluated }
{}

/// Two questions of steps are one to the code where they are one, and not otherwise. So the first use of an item is
/// that of no other one.
pub fn items_are_told_apart()
    ensures { AnItemIsItself }
{}

/// Right after a CLEAR the state is that before the first step, but for the streams and what is done of the commands.
/// After a RESET each transaction stands where it stood, as it was; owners, contents, savevalues, switches, the clock,
/// the next number and the streams stay, and each entity keeps its line in the report; entries, captures, times, the
/// values of tables and the relative clock begin at 0, and the least and the greatest content are the present one.
pub fn runs_begin_anew()
    ensures cleared { ClearBeginsAnew }
    ensures stays { ResetMovesNobody }
    ensures counts { ResetCountsAnew }
{}

/// A TABULATE brings one value to its table, after the others, and changes no other entity.
pub fn a_table_takes_one_value()
    ensures { TabulateAddsOneValue }
{}
