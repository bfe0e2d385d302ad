//! What holds of streams and of what operators make of them.
ghost use Rattle.std.specs.Prelude.{◌≡◌, ◌≤◌, ℕ, Bool, List, [], ◌∷◌, Option, Some, None, slice_get, codes, pos, negsuc, true, false};
ghost use Rattle.spl_tree.specs.declared.code.Code.TheVariants as C;
ghost use Rattle.spl_value.specs.Script.{End, Failed};
ghost use Rattle.spl_value.specs.declared.item.Item.TheVariants as I;
ghost use Rattle.spl_value.specs.declared.item.FaultKind.TheVariants as K;
ghost use Rattle.spl_value.specs.declared.types.IntKind.TheVariants as N;
ghost use Rattle.spl_value.specs.declared.types.SplType.TheVariants as T;
ghost use Rattle.spl_value.specs.declared.value.Value.TheVariants as V;
ghost use Rattle.stream_model.specs.Laws.{StartLaw, HistoryLaw, EndLaw, LiveLaw, EndItemLaw, EndGivesLaw, WaitLaw, PortsLaw, OutGrows, ChainGrows, OutCloses, ClosedEnds, ClosedGivesClosed, BodyLaw, BodyPorts, SinkPorts, GraphLaw, EventsLaw, TopoEventsLaw, IsOrdered, IsNumbered, IsWithin, RowsClose, PiecesLaw, RowsLaw, FailedRowsLaw};
ghost use Rattle.spl_tree.specs.declared.code.Code.{Code};
ghost use Rattle.spl_tree.specs.declared.code.Slot.{Slot};
ghost use Rattle.stream_model.specs.PathLaws.{path_graph, FilterLaw, SinkLaw, SinkFaultLaw};
ghost use Rattle.stream_model.specs.examples.TwoSinks.{two_sinks, unread_source, bad_row, fault_of_run};
ghost use Rattle.stream_model.specs.Rows.{Setting, rows, too_long, text_of};
ghost use Rattle.language_model.specs.declared.checked.CheckedClauses.TheVariants as A;
ghost use Rattle.language_model.specs.StreamTypes.{Attributes};
ghost use Rattle.spl_tree.specs.declared.graph.OpKind.TheVariants as O;
ghost use Rattle.stream_model.specs.CheckedMeaning.{graph_of};
ghost use Rattle.stream_model.specs.Operators.{Operator};
ghost use Rattle.stream_model.specs.examples.CheckedGraphs.{after_source, texts, ids};

/// With no event nothing is given. One event more gives its reaction after the history of all before it,
/// and may end the operator, whose last item on each output port then says how. A port waits for
/// the final marker of each of its inputs.
pub fn history_law()
    ensures start { StartLaw }
    ensures history { HistoryLaw }
    ensures ends { EndLaw }
    ensures live { LiveLaw }
    ensures by { EndItemLaw }
    ensures last { EndGivesLaw }
    ensures waits { WaitLaw }
    ensures inputs { PortsLaw }
{}

/// A longer list of events gives a longer stream: what an operator has given, no later event takes back. A
/// closed stream ends the operator that reads it alone, and gives a closed one.
pub fn order_law()
    ensures out { OutGrows }
    ensures chain { ChainGrows }
    ensures closes { OutCloses }
    ensures ended { ClosedEnds }
    ensures closed { ClosedGivesClosed }
{}

/// No kind of operator gives a final marker or a fault by its body. A body gives on the operator's output
/// ports alone, and that of a sink on port 0, as which its writer stands; on which ports a Custom submits is
/// said where its bodies fit.
pub fn kinds_law()
    ensures items { BodyLaw }
    ensures ports { BodyPorts }
    ensures sinks { SinkPorts }
{}

/// What operators with one connection make of a stream. A filter passes the tuples for which its
/// condition holds, up to one for which it faults, window markers, and the end. A sink gives its writer
/// the tuples before the end, and ends with the fault that its stream does.
pub fn path_law()
    ensures filters { FilterLaw }
    ensures sinks { SinkLaw }
    ensures faults { SinkFaultLaw }
{}

/// The streams of an ordered graph are what its operators make of them, and the events of each
/// operator are those of its inputs.
pub fn graph_law()
    ensures streams { GraphLaw }
    ensures events { EventsLaw }
    ensures in_order { TopoEventsLaw }
{}

/// A source, a filter that reads it and a sink that reads that are ordered, and numbered in their order.
pub fn chain_is_ordered()
    ensures ordered { (schema : Attributes) (source : List ℕ) (strict : Bool) (condition : Option (Code Slot)) (sink : List ℕ)
        → IsOrdered (path_graph schema source strict condition sink).ops }
    ensures numbered { (schema : Attributes) (source : List ℕ) (strict : Bool) (condition : Option (Code Slot)) (sink : List ℕ)
        → IsNumbered (path_graph schema source strict condition sink) }
{}

/// The stream of a source is closed. Where there is no fault it is the rows of the file's lines.
pub fn rows_law()
    ensures closes { RowsClose }
    ensures lines { PiecesLaw }
    ensures all { RowsLaw }
    ensures failed { FailedRowsLaw }
    ensures within { (o : Setting) → 6 ≤ o.limit → IsWithin o (codes "20\n30\n") }
{}

/// The fault of some runs: that of the first end that ended with one, in the order of the operators.
/// A stream that nobody reads is an end, and one that is read isn't.
pub fn ends_on_literals()
    ensures first_sink { fault_of_run two_sinks (I.Bad (bad_row 0) ∷ []) (I.Bad (bad_row 1) ∷ []) ≡ Some (bad_row 1) }
    ensures other_sink { fault_of_run two_sinks (I.Bad (bad_row 0) ∷ []) (I.Window ∷ I.Final ∷ []) ≡ Some (bad_row 0) }
    ensures none { fault_of_run two_sinks (I.Final ∷ []) (I.Window ∷ I.Final ∷ []) ≡ None }
    ensures unread { fault_of_run unread_source (I.Tuple [] ∷ I.Bad (bad_row 0) ∷ []) (I.Bad (bad_row 1) ∷ []) ≡ Some (bad_row 0) }
    ensures read { fault_of_run unread_source (I.Final ∷ []) (I.Tuple [] ∷ I.Bad (bad_row 1) ∷ []) ≡ Some (bad_row 1) }
{}

/// Rows of some files.
pub fn rows_on_literals()
    ensures plain { rows (record { op = 0; schema = record { name = codes "k"; kind = T.Text } ∷ record { name = codes "n"; kind = T.Int N.I8 } ∷ []; strict = true; limit = 100 })
        (codes "a,7\n\nb,-128") End
        ≡ I.Tuple (V.Text (codes "a") ∷ V.Int (pos 7) ∷ []) ∷ I.Tuple (V.Text (codes "b") ∷ V.Int (negsuc 127) ∷ []) ∷ I.Window ∷ I.Final ∷ [] }
    ensures quoted { rows (record { op = 0; schema = record { name = codes "k"; kind = T.Text } ∷ []; strict = false; limit = 100 })
        (codes "\"a,b\"\r\n\"x\n") End
        ≡ I.Tuple (V.Text (codes "a,b") ∷ []) ∷ I.Tuple (V.Text (codes "x") ∷ []) ∷ I.Window ∷ I.Final ∷ [] }
    ensures bad { rows (record { op = 3; schema = record { name = codes "n"; kind = T.Int N.I8 } ∷ []; strict = true; limit = 100 })
        (codes "1\n128\n2\n") End
        ≡ I.Tuple (V.Int (pos 1) ∷ []) ∷ I.Bad (record { op = 3; kind = K.BadRow; line = 2 }) ∷ [] }
    ensures dropped { rows (record { op = 3; schema = record { name = codes "n"; kind = T.Int N.I8 } ∷ []; strict = false; limit = 100 })
        (codes "1\n128\n2\n") End
        ≡ I.Tuple (V.Int (pos 1) ∷ []) ∷ I.Tuple (V.Int (pos 2) ∷ []) ∷ I.Window ∷ I.Final ∷ [] }
    ensures limited { rows (record { op = 3; schema = record { name = codes "n"; kind = T.Int N.I8 } ∷ []; strict = true; limit = 3 })
        (codes "1\n2\n") End
        ≡ I.Tuple (V.Int (pos 1) ∷ []) ∷ I.Bad (record { op = 3; kind = K.LongFile; line = 2 }) ∷ [] }
    ensures failed { rows (record { op = 3; schema = record { name = codes "n"; kind = T.Int N.I8 } ∷ []; strict = true; limit = 9 })
        (codes "1\n2") Failed
        ≡ I.Tuple (V.Int (pos 1) ∷ []) ∷ I.Bad (record { op = 3; kind = K.ReadFailed; line = 2 }) ∷ [] }
    ensures failed_later { rows (record { op = 3; schema = record { name = codes "n"; kind = T.Int N.I8 } ∷ []; strict = true; limit = 9 })
        (codes "20\n30\n") Failed
        ≡ I.Tuple (V.Int (pos 20) ∷ []) ∷ I.Tuple (V.Int (pos 30) ∷ []) ∷ I.Bad (record { op = 3; kind = K.ReadFailed; line = 3 }) ∷ [] }
    ensures first_bad { rows (record { op = 3; schema = record { name = codes "n"; kind = T.Int N.I8 } ∷ []; strict = true; limit = 9 })
        (codes "x\n20\n") End
        ≡ I.Bad (record { op = 3; kind = K.BadRow; line = 1 }) ∷ [] }
    ensures marked { rows (record { op = 3; schema = record { name = codes "n"; kind = T.Int N.I8 } ∷ []; strict = true; limit = 99 })
        (239 ∷ 187 ∷ 191 ∷ codes "5\r") End
        ≡ I.Tuple (V.Int (pos 5) ∷ []) ∷ I.Window ∷ I.Final ∷ [] }
    ensures flags { rows (record { op = 3; schema = record { name = codes "b"; kind = T.Bool } ∷ []; strict = true; limit = 99 })
        (codes "true\nfalse\nTrue\n") End
        ≡ I.Tuple (V.Bool true ∷ []) ∷ I.Tuple (V.Bool false ∷ []) ∷ I.Bad (record { op = 3; kind = K.BadRow; line = 3 }) ∷ [] }
    ensures longest { too_long 65536 65537 65537 ≡ None }
    ensures long_row { too_long 65537 65538 65536 ≡ Some K.LongRow }
    ensures long_file { too_long 65537 65538 65535 ≡ Some K.LongFile }
{}

/// The text of some streams.
pub fn text_on_literals()
    ensures kinds { text_of (I.Tuple (V.Text (codes "a") ∷ V.Int (negsuc 127) ∷ V.Bool true ∷ []) ∷ I.Window ∷ I.Final ∷ [])
        ≡ codes "a,-128,true\n" }
    ensures quoted { text_of (I.Tuple (V.Text (codes "a,\"b\"") ∷ []) ∷ I.Tuple (V.Text [] ∷ []) ∷ I.Tuple (V.Int (pos 7) ∷ []) ∷ [])
        ≡ codes "\"a,\"\"b\"\"\"\n\"\"\n7\n" }
{}

/// The operators of checked graphs, with the attributes of their ports: a source and a sink that reads it, and
/// a Split into two streams.
pub fn graphs_of_operators()
    ensures sink { graph_of (after_source O.FileSink [] (A.FileSink (codes "out"))) ≡ (record {
      ops = record { number = 0; clauses = A.FileSource (codes "in") true; functions = []; types = record { ins = []; outs = texts ∷ [] }; ins = []; outs = 0 ∷ [] }
          ∷ record { number = 1; clauses = A.FileSink (codes "out"); functions = []; types = record { ins = texts ∷ []; outs = [] }; ins = (0 ∷ []) ∷ []; outs = [] } ∷ [];
      topo = 0 ∷ 1 ∷ [];
    }) }
    ensures split { slice_get (graph_of (after_source O.Split (1 ∷ 2 ∷ []) (A.Split (C.Literal (V.Int (pos 1)))))).ops 1 ≡ Some (record {
      number = 1;
      clauses = A.Split (C.Literal (V.Int (pos 1)));
      functions = [];
      types = record { ins = texts ∷ []; outs = ids ∷ texts ∷ [] };
      ins = (0 ∷ []) ∷ [];
      outs = 1 ∷ 2 ∷ [];
    }) }
{}
