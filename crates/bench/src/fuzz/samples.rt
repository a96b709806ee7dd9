//! Valid inputs of each reader.

pub const REQUESTS: &[&[u8]] = &[
    &[1, 0, 19, 0, 37],
    &[3, 0, 107, 0, 3],
    &[4, 0, 8, 0, 1],
    &[5, 0, 172, 0xFF, 0],
    &[6, 0, 1, 0, 3],
    &[15, 0, 19, 0, 10, 2, 0xCD, 1],
    &[16, 0, 1, 0, 2, 4, 0, 10, 1, 2],
    &[22, 0, 4, 0, 0xF2, 0, 0x25],
    &[23, 0, 3, 0, 6, 0, 14, 0, 3, 6, 0, 255, 0, 255, 0, 255],
];

/// Replies to a read of three holding registers.
pub const REPLIES: &[&[u8]] = &[&[3, 6, 2, 0x2B, 0, 0, 0, 100], &[0x83, 2]];

pub const STREAMS: &[&[u8]] = &[
    &[0, 0, 0, 0, 0, 6, 17, 3, 0, 107, 0, 3],
    &[0, 0, 0, 0, 0, 9, 17, 3, 6, 2, 0x2B, 0, 0, 0, 100],
    &[0, 1, 0, 0, 0, 3, 17, 0x83, 2, 0, 2, 0, 0, 0, 3, 17, 0x83, 2],
    &[0, 0, 0, 0, 0, 2, 17, 7],
];

pub const CALLS: &[&[u8]] = &[
    b"GET /points/e/total HTTP/1.1\r\nHost: a\r\n\r\n",
    b"GET /points/e/readings/0/9 HTTP/1.0\r\n\r\n",
    b"GET /callers/ann/orders/k1 HTTP/1.1\r\n\r\n",
    b"PUT /callers/ann/orders/k1 HTTP/1.1\r\nContent-Length: 26\r\n\r\n{\"point\":\"lim\",\"value\":80}",
    b"GET /callers/ann/voids/v1 HTTP/1.1\r\nHost: a\r\n\r\n",
    b"PUT /callers/ann/voids/v1 HTTP/1.1\r\nContent-Length: 22\r\n\r\n{\"point\":\"e\",\"slot\":2}",
    b"PUT /callers/ann/lists/l1 HTTP/1.1\r\nContent-Length: 89\r\n\r\nname,device,table,address,type,length,scale,role,roll\ne,m1,holding,107,uint16,,,counter,\n",
];

pub const LISTS: &[&[u8]] = &[
    b"name,device,table,address,type,length,scale,role,roll\ne,m1,holding,107,uint16,,,counter,\nlim,m1,holding,40,uint16,,,setting,\n",
    b"\xEF\xBB\xBFname,device,table,address,type,length,scale,role,roll\r\n\"e\",m1,holding,m103+24,acc32,,-2,counter,99999\r\ns,m2,input,9,string,8,,gauge,\r\n",
    b"name,device,table,address,type,length,scale,role,roll\nb,m2,coil,0,bit,1,0,setting,\nd,m2,discrete,65535,bit,,,gauge,\n",
    b"name,device,table,address,type,length,scale,role,roll,words\ne,m1,holding,107,uint32,,,counter,,swapped\nlim,m1,holding,40,int64,,,setting,,big\ns,m2,input,9,string,8,,gauge,,\n",
];

pub const SITES: &[&[u8]] = &[
    b"[[line]]\nname = \"roof\"\naddress = \"127.0.0.1:1502\"\n[[device]]\nname = \"m1\"\nline = \"roof\"\nunit = 17\ngap = 8\nmodels = [[1, 40002, 66], [103, 40070, 50]]\n",
    b"[[line]]\nname = 'cellar'\naddress = 'host:502'\n\n[[device]]\nline = 'cellar'\nname = 'm2'\nunit = 0xFF\n",
];

pub const IMAGES: &[&[u8]] = &[
    b"script = [\"pass\", \"drop\", \"twice\", \"hold 1\"]\n[[unit]]\nid = 17\nholding = [7, 8]\nholding_start = 5\ncoils = [0, 1]\n",
    b"[[unit]]\nid = 1\ninput = [65535]\ninput_start = 65535\n[[unit]]\nid = 2\ndiscrete = [1]\n",
];

pub const SCRIPTS: &[&[u8]] = &[
    b"device m1 roof 17\npoint e,m1,holding,107,uint16,,,counter,\nopen roof\nask 1 m1 1 3 107 1\nreply 1 00 00 00 00 00 05 11 03 02 FD E8\nvoid v1 e 1\nrestart\n",
    b"device m1 roof 17\npoint lim,m1,holding,40,uint16,,,setting,\norder k1 lim 80\nopen roof\nsend 1 1\nreply 1 00 00 00 00 00 06 11 06 00 28 00 50\n# end\n",
];
