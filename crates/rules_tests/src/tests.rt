//! What no clause says: that the rules are those of the language, by tables of texts with what becomes of each, worked by hand after the rules; and that
//! there is an answer where memory is ample.
mod atoms;
mod bodies;
mod calls;
mod checks;
mod declarations;
mod expressions;
mod forms;
mod functions;
mod layouts;
mod limits;
mod nested;
mod shapes;
mod slots;
mod statements;
mod tables;
mod texts;
