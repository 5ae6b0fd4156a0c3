// The crew's book, and the promise that a route keeps whatever was called before it.
ghost use Rattle.walks.specs.Promise.{MarksLeft, CarriesOn, AnsweredOnce, ToldOnce, CrewPromise};

use measure::measure::Measure;

// Every list of calls leaves marks, and only one set of them; one more call carries on from there.
pub fn marks_left<M: Measure>()
    ensures once { MarksLeft M.scale }
    ensures more { CarriesOn M.scale }
{}

// Every call has an answer, and only one, and so has each call of a list.
pub fn answered_once<M: Measure>()
    ensures one { AnsweredOnce M.scale }
    ensures all { ToldOnce M.scale }
{}

// A route over the marks left keeps its promise to the crews.
pub fn crew_promise<M: Measure>()
    ensures { CrewPromise M.scale }
{}
