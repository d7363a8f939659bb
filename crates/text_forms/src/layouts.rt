//! The texts that have other forms.

use crate::layout::{Layout, Line, Part};

/// The report of `omny_cli`.
pub const REPORT: Layout = Layout {
    parts: &[
        Part::List("uploads"),
        Part::Object("totals"),
        Part::List("validators"),
        Part::List("tokens"),
    ],
    columns: "upload,validator,token,end,taps,paid,transfers,capped,stale,unknown,cents,offset,\
        fault",
    kind: None,
    lines: &[
        Line(
            3,
            "token",
            "token @token taps #taps paid #paid transfers #transfers capped #capped stale #stale \
                unknown #unknown cents #cents",
        ),
        Line(
            2,
            "validator",
            "validator #validator taps #taps paid #paid transfers #transfers capped #capped \
                stale #stale unknown #unknown cents #cents",
        ),
        Line(0, "", "uploads #uploads"),
        Line(0, "upload", "upload #upload @end #taps"),
        Line(0, "upload", "upload #upload @end #taps at #offset @fault"),
        Line(0, "upload", "upload #upload @end"),
        Line(
            1,
            "totals",
            "totals taps #taps paid #paid transfers #transfers capped #capped stale #stale \
                unknown #unknown cents #cents",
        ),
        Line(2, "", "validators #validators"),
        Line(3, "", "tokens #tokens"),
    ],
};

/// The statement of `omny_cli`, also explained.
pub const STATEMENT: Layout = Layout {
    parts: &[
        Part::Value("token"),
        Part::List("terms"),
        Part::List("entries"),
        Part::Object("totals"),
        Part::List("windows"),
    ],
    columns: "token,moment,mode,validator,answer,from,fare,rides,ceiling,window_start,window_end,\
        taps,paid,transfers,capped,stale,unknown,cents,because",
    kind: None,
    lines: &[
        Line(0, "statement", "statement @token"),
        Line(1, "terms", "terms fare #fare rides #rides ceiling #ceiling"),
        Line(
            1,
            "terms",
            "terms from @from fare #fare rides #rides ceiling #ceiling",
        ),
        Line(
            3,
            "totals",
            "totals taps #taps paid #paid transfers #transfers capped #capped stale #stale \
                unknown #unknown cents #cents",
        ),
        Line(4, "", "window none"),
        Line(
            4,
            "window",
            "window @window_start @window_end paid #paid cents #cents",
        ),
        Line(
            4,
            "window",
            "window @window_start @window_end paid #paid cents #cents because *because",
        ),
        Line(
            4,
            "earlier window",
            "earlier window @window_start @window_end paid #paid cents #cents",
        ),
        Line(
            4,
            "earlier window",
            "earlier window @window_start @window_end paid #paid cents #cents because *because",
        ),
        Line(2, "entry", "@moment @mode #validator @answer #cents"),
        Line(
            2,
            "entry",
            "@moment @mode #validator @answer #cents because *because",
        ),
    ],
};

/// The findings of `omny_audit`.
pub const FINDINGS: Layout = Layout {
    parts: &[Part::List("findings")],
    columns: "wrong,lines,line,token,moment,validator,upload,place,class,taps,ledger_taps,offset,\
        fault,tokens,cents,wanted_cents,wanted",
    kind: Some("finding"),
    lines: &[
        Line(0, "wrong line", "line #line wants *wanted"),
        Line(0, "no ledger line", "line #line is no ledger line"),
        Line(0, "settled", "legal #lines lines, settled"),
        Line(
            0,
            "not settled",
            "legal #lines lines, not settled: line #line is earlier than the line before",
        ),
        Line(
            0,
            "wrong lines",
            "wrong #wrong of #lines lines, of #tokens tokens; cents #cents, wanted #wanted_cents",
        ),
        Line(0, "all taps", "all taps of the uploads"),
        Line(0, "surplus tap", "surplus tap @token @moment #validator"),
        Line(0, "missing tap", "missing tap @token @moment #validator"),
        Line(0, "all classes", "all classes of the table"),
        Line(0, "wrong class", "line #line has another class than *class"),
        Line(0, "all places", "all places of the uploads"),
        Line(
            0,
            "wrong place",
            "line #line has another tap than upload #upload has at place #place",
        ),
        Line(
            0,
            "place again",
            "line #line has upload #upload place #place again",
        ),
        Line(
            0,
            "missing place",
            "no line has upload #upload place #place",
        ),
        Line(
            0,
            "no report line",
            "wrong report line #line: no report has it",
        ),
        Line(
            0,
            "wrong report taps",
            "wrong report line #line: the uploads have #taps taps, the ledger #ledger_taps",
        ),
        Line(
            0,
            "wrong report line",
            "wrong report line #line: wants *wanted",
        ),
        Line(0, "report", "report of the ledger"),
        Line(0, "uploads not compared", "upload lines not compared"),
        Line(
            0,
            "damaged upload",
            "upload #upload refused #taps at #offset @fault",
        ),
    ],
};

/// What `omny_tools uploads` prints, with `--look`, too.
pub const UPLOADS: Layout = Layout {
    parts: &[
        Part::List("uploads"),
        Part::List("tokens"),
        Part::List("checks"),
    ],
    columns: "found,upload,of,batches,batch,tap,taps,offset,all,shared,first,last,token,moment,day,\
        validator,name,fault,cause",
    kind: Some("line"),
    lines: &[
        Line(
            0,
            "upload",
            "upload #upload batches #batches taps #taps first @first last @last *name",
        ),
        Line(
            0,
            "fault",
            "fault #upload batch #batch at #offset @fault, *cause",
        ),
        Line(
            0,
            "fault",
            "fault #upload batch #batch tap #tap at #offset @fault, *cause",
        ),
        Line(1, "tokens", "tokens #upload all #all shared #shared"),
        Line(
            2,
            "doubles",
            "doubles #found first @token @moment #validator",
        ),
        Line(2, "doubles", "doubles #found first -"),
        Line(2, "before", "before #found first @token @moment #validator"),
        Line(2, "before", "before #found first -"),
        Line(2, "after", "after #found first @token @moment #validator"),
        Line(2, "after", "after #found first -"),
        Line(2, "repeated", "repeated #found first #upload of #of"),
        Line(2, "repeated", "repeated #found first -"),
        Line(2, "silent", "silent #found first @day #validator"),
        Line(2, "silent", "silent #found first -"),
    ],
};
